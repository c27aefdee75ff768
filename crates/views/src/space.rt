// The space report and the alarm.
ghost use Rattle.std.specs.Prelude.{◌≡◌, ◌<◌, ◌^◌};
ghost use Rattle.report.specs.Alarms.{alarm_answer};
ghost use Rattle.views.specs.Alarms.{alarm_outcome};
ghost use Rattle.views.specs.Ratios.{ten_thousandths};

use host::reading::read_file;
use host::{Failure, Word};
use layout::trailers::check_trailer;
use layout::{FIRST_EDITION, MAX_IMAGE_BYTES, Shape};
use report::alarms::alarm;
use report::reports::report;
use report::{Alarm, Level, Report};

// A count's share of all, in ten-thousandths, to the nearest one, a half upwards. The report's own
// ratios are f64, and exact to 53 bits; to print one takes a further product, which rounds again
// and falls below the half in one of forty halves. So the digits come from the exact counts, of
// which the ratios are the quotients: held / N, and saved / (mapped chunks times P), which is saved
// and held units together. Of nothing the share is 0.
#[tactic(auto, unfolding(crate::specs::Ratios::ten_thousandths))]
fn ten_thousandths(count: u32, all: u64) -> u64
    requires { all < 2 ^ 33 }
    ensures { result ≡ ten_thousandths count all }
{
    if all == 0 {
        return 0;
    }
    (20000 * u64::from(count) + all) / (2 * all)
}

// A label and a count's share of all, as a fraction of four digits.
fn ratio_line(rt: HostRuntime, label: &str, count: u32, all: u64)
    requires { all < 2 ^ 33 }
{
    let t = ten_thousandths(count, all);
    let _ = println!(rt; "{label} {}.{:04}", t / 10000, t % 10000);
}

fn report_lines(rt: HostRuntime, g: Shape, r: Report) {
    let Report {
        mapped,
        held,
        free,
        saved,
        ..
    } = r;
    let _ = println!(rt; "mapped {mapped}");
    let _ = println!(rt; "held {held}");
    let _ = println!(rt; "free {free}");
    // The reserved units, which edition 1 does not have.
    if g.edition != FIRST_EDITION {
        let _ = println!(rt; "reserved {}", g.r);
    }
    let _ = println!(rt; "saved {saved}");
    ratio_line(rt, "held-ratio", held, u64::from(g.n));
    ratio_line(rt, "saved-ratio", saved, u64::from(saved) + u64::from(held));
}

// The report, with what the trailer says besides.
fn report_image(rt: HostRuntime, image: &[u8]) -> Result<Option<Word>, Failure> {
    let r = report(image)?;
    let g = check_trailer(image)?;
    report_lines(rt, g, r);
    Ok(Some(Word::Reported))
}

// Reports on the image that argument 1 names.
pub(crate) fn report_file(rt: HostRuntime) -> Result<Option<Word>, Failure> {
    let mut image = [0u8; MAX_IMAGE_BYTES];
    let length = read_file(rt, 1, &mut image)?;
    report_image(rt, &image[..length])
}

fn alarm_image(image: &[u8], level: Level) -> Result<Option<Word>, Failure>
    ensures { result ≡ alarm_outcome (alarm_answer image.now level) }
{
    let word = match alarm(image, level)? {
        Alarm::Sounds => Word::Sounds,
        Alarm::Silent => Word::Silent,
    };
    Ok(Some(word))
}

// Whether the alarm of the image that argument 1 names sounds at a level.
pub(crate) fn alarm_file(rt: HostRuntime, level: Level) -> Result<Option<Word>, Failure> {
    let mut image = [0u8; MAX_IMAGE_BYTES];
    let length = read_file(rt, 1, &mut image)?;
    alarm_image(&image[..length], level)
}
