// The exported functions: each is the library's of that name, for C.
ghost use Rattle.std.specs.Prelude.{◌≡◌, length};
ghost use Rattle.layout.specs.Format.{format_answer, format_image};
ghost use Rattle.layout.specs.Layout.{edition1, edition2};
ghost use Rattle.image.specs.Loading.{loaded};
ghost use Rattle.access.specs.Ranges.{split_answer, split_out, access_answer};
ghost use Rattle.access.specs.Parts.{held_of};
ghost use Rattle.access.specs.Sizes.{size_answer};
ghost use Rattle.report.specs.Reports.{report_answer};
ghost use Rattle.report.specs.Alarms.{alarm_answer};
ghost use Rattle.repair.specs.Repair.{repair_answer, repair_image, repair_list};
ghost use Rattle.convert.specs.Convert.{convert_answer, convert_out};
ghost use Rattle.planner.specs.Planner.{plan_answer, plan_out};
ghost use Rattle.rules.specs.Rules.{checked};
ghost use Rattle.carry.specs.Carry.{carry_answer, carry_image};
ghost use Rattle.answers.specs.Loading.{load_answer, load_out};
ghost use Rattle.answers.specs.Numbers.{done_answer, shape_answer, counted_answer, access_answers, held_answer, reported_answer, alarm_answers};

use answers::{Answer, ReportAnswer, ShapeAnswer};
use report::Level;
use steps::Request;
use sumbilak::calls;

#[unsafe(no_mangle)]
pub extern "C" fn sumbilak_format(image: &mut [u8], p: u64, c: u64, m: u64, n: u64) -> Answer
    ensures value { result ≡ done_answer (format_answer (edition1 p c m n) image.old) }
    ensures image_after { image.new ≡ format_image (edition1 p c m n) image.old }
{
    calls::sumbilak_format(image, p, c, m, n)
}

#[unsafe(no_mangle)]
pub extern "C" fn sumbilak_format2(
    image: &mut [u8],
    p: u64,
    c: u64,
    m: u64,
    n: u64,
    r: u64,
) -> Answer
    ensures value { result ≡ done_answer (format_answer (edition2 p c m n r) image.old) }
    ensures image_after { image.new ≡ format_image (edition2 p c m n r) image.old }
{
    calls::sumbilak_format2(image, p, c, m, n, r)
}

#[unsafe(no_mangle)]
pub extern "C" fn sumbilak_shape(image: &[u8]) -> ShapeAnswer
    ensures { result ≡ shape_answer (loaded image.now) }
{
    calls::sumbilak_shape(image)
}

#[unsafe(no_mangle)]
pub extern "C" fn sumbilak_load(image: &[u8], out: &mut [u64]) -> Answer
    ensures value { result ≡ load_answer image.now (length out.old) }
    ensures out_after { out.new ≡ load_out image.now out.old }
{
    calls::sumbilak_load(image, out)
}

#[unsafe(no_mangle)]
pub extern "C" fn sumbilak_split(image: &[u8], offset: u64, span: u64, out: &mut [u8]) -> Answer
    ensures value { result ≡ counted_answer (split_answer image.now offset span (length out.old)) }
    ensures out_after { out.new ≡ split_out image.now offset span out.old }
{
    calls::sumbilak_split(image, offset, span, out)
}

#[unsafe(no_mangle)]
pub extern "C" fn sumbilak_access(image: &[u8], write: bool, offset: u64, span: u64) -> Answer
    ensures { result ≡ access_answers (access_answer image.now write offset span) }
{
    calls::sumbilak_access(image, write, offset, span)
}

#[unsafe(no_mangle)]
pub extern "C" fn sumbilak_held(image: &[u8], chunk: u64) -> Answer
    ensures { result ≡ held_answer (held_of image.now chunk) }
{
    calls::sumbilak_held(image, chunk)
}

#[unsafe(no_mangle)]
pub extern "C" fn sumbilak_stored_size(image: &[u8], chunk: u64) -> Answer
    ensures { result ≡ counted_answer (size_answer image.now chunk) }
{
    calls::sumbilak_stored_size(image, chunk)
}

#[unsafe(no_mangle)]
pub extern "C" fn sumbilak_plan_write(image: &[u8], chunk: u64, size: u64, out: &mut [u8]) -> Answer
    ensures value { result ≡ counted_answer (plan_answer image.now (Request.Write chunk size) (length out.old)) }
    ensures out_after { out.new ≡ plan_out image.now (Request.Write chunk size) out.old }
{
    calls::sumbilak_plan_write(image, chunk, size, out)
}

#[unsafe(no_mangle)]
pub extern "C" fn sumbilak_plan_discard(image: &[u8], chunk: u64, out: &mut [u8]) -> Answer
    ensures value { result ≡ counted_answer (plan_answer image.now (Request.Discard chunk) (length out.old)) }
    ensures out_after { out.new ≡ plan_out image.now (Request.Discard chunk) out.old }
{
    calls::sumbilak_plan_discard(image, chunk, out)
}

#[unsafe(no_mangle)]
pub extern "C" fn sumbilak_check_write(image: &[u8], chunk: u64, size: u64, plan: &[u8]) -> Answer
    ensures { result ≡ done_answer (checked image.now (Request.Write chunk size) plan.now) }
{
    calls::sumbilak_check_write(image, chunk, size, plan)
}

#[unsafe(no_mangle)]
pub extern "C" fn sumbilak_check_discard(image: &[u8], chunk: u64, plan: &[u8]) -> Answer
    ensures { result ≡ done_answer (checked image.now (Request.Discard chunk) plan.now) }
{
    calls::sumbilak_check_discard(image, chunk, plan)
}

#[unsafe(no_mangle)]
pub extern "C" fn sumbilak_carry_write(
    image: &mut [u8],
    chunk: u64,
    size: u64,
    plan: &[u8],
    n: u64,
) -> Answer
    ensures value { result ≡ done_answer (carry_answer image.old (Request.Write chunk size) plan.now n) }
    ensures image_after { image.new ≡ carry_image image.old (Request.Write chunk size) plan.now n }
{
    calls::sumbilak_carry_write(image, chunk, size, plan, n)
}

#[unsafe(no_mangle)]
pub extern "C" fn sumbilak_carry_discard(
    image: &mut [u8],
    chunk: u64,
    plan: &[u8],
    n: u64,
) -> Answer
    ensures value { result ≡ done_answer (carry_answer image.old (Request.Discard chunk) plan.now n) }
    ensures image_after { image.new ≡ carry_image image.old (Request.Discard chunk) plan.now n }
{
    calls::sumbilak_carry_discard(image, chunk, plan, n)
}

#[unsafe(no_mangle)]
pub extern "C" fn sumbilak_report(image: &[u8]) -> ReportAnswer
    ensures { result ≡ reported_answer (report_answer image.now) }
{
    calls::sumbilak_report(image)
}

#[unsafe(no_mangle)]
pub extern "C" fn sumbilak_alarm_count(image: &[u8], units: u64) -> Answer
    ensures { result ≡ alarm_answers (alarm_answer image.now (Level.Count units)) }
{
    calls::sumbilak_alarm_count(image, units)
}

#[unsafe(no_mangle)]
pub extern "C" fn sumbilak_alarm_fraction(image: &[u8], fraction: f64) -> Answer
    ensures { result ≡ alarm_answers (alarm_answer image.now (Level.Fraction fraction)) }
{
    calls::sumbilak_alarm_fraction(image, fraction)
}

#[unsafe(no_mangle)]
pub extern "C" fn sumbilak_repair(image: &mut [u8], out: &mut [u8]) -> Answer
    ensures value { result ≡ counted_answer (repair_answer image.old (length out.old)) }
    ensures image_after { image.new ≡ repair_image image.old (length out.old) }
    ensures out_after { out.new ≡ repair_list image.old out.old }
{
    calls::sumbilak_repair(image, out)
}

#[unsafe(no_mangle)]
pub extern "C" fn sumbilak_convert(image: &[u8], out: &mut [u8]) -> Answer
    ensures value { result ≡ counted_answer (convert_answer image.now (length out.old)) }
    ensures out_after { out.new ≡ convert_out image.now out.old }
{
    calls::sumbilak_convert(image, out)
}
