// The calls of the C interface with an index: each hands its arguments on and its answer back as numbers.
ghost use Rattle.std.specs.Prelude.{◌≡◌, length};
ghost use Rattle.indexed.specs.Opening.{open_outcome, open_sets};
ghost use Rattle.indexed.specs.Calls.{index_held, plan_answer_by, plan_out_by, checked_by, carry_answer_by, carry_image_by, next_sets, access_answer_by, held_of_by, size_answer_by, report_answer_by, alarm_answer_by};
ghost use Rattle.answers.specs.Numbers.{opened_answer, counted_answer, done_answer, access_answers, held_answer, reported_answer, alarm_answers};

use answers::{Answer, Opened, ReportAnswer, numbers};
use indexed::{HeldShape, lent};
use report::Level;
use steps::Request;

pub fn sumbilak_open(image: &[u8], sets: &mut [u64]) -> Opened
    ensures value { result ≡ opened_answer (open_outcome image.now (length sets.old)) }
    ensures sets_after { sets.new ≡ open_sets image.now sets.old }
{
    let x = indexed::opening::open(image, sets);
    numbers::opened(x)
}

pub fn sumbilak_index_plan_write(
    index: HeldShape,
    sets: &[u64],
    image: &[u8],
    chunk: u64,
    size: u64,
    out: &mut [u8],
) -> Answer
    ensures value { result
        ≡ counted_answer (plan_answer_by (index_held index sets.now) image.now (Request.Write chunk size) (length out.old)) }
    ensures out_after { out.new ≡ plan_out_by (index_held index sets.now) image.now (Request.Write chunk size) out.old }
{
    let x = lent::plan_write(index, sets, image, chunk, size, out);
    numbers::counted(x)
}

pub fn sumbilak_index_plan_discard(
    index: HeldShape,
    sets: &[u64],
    image: &[u8],
    chunk: u64,
    out: &mut [u8],
) -> Answer
    ensures value { result
        ≡ counted_answer (plan_answer_by (index_held index sets.now) image.now (Request.Discard chunk) (length out.old)) }
    ensures out_after { out.new ≡ plan_out_by (index_held index sets.now) image.now (Request.Discard chunk) out.old }
{
    let x = lent::plan_discard(index, sets, image, chunk, out);
    numbers::counted(x)
}

pub fn sumbilak_index_check_write(
    index: HeldShape,
    sets: &[u64],
    image: &[u8],
    chunk: u64,
    size: u64,
    plan: &[u8],
) -> Answer
    ensures { result ≡ done_answer (checked_by (index_held index sets.now) image.now (Request.Write chunk size) plan.now) }
{
    let x = lent::check(index, sets, image, Request::Write { chunk, size }, plan);
    numbers::done(x)
}

pub fn sumbilak_index_check_discard(
    index: HeldShape,
    sets: &[u64],
    image: &[u8],
    chunk: u64,
    plan: &[u8],
) -> Answer
    ensures { result ≡ done_answer (checked_by (index_held index sets.now) image.now (Request.Discard chunk) plan.now) }
{
    let x = lent::check(index, sets, image, Request::Discard { chunk }, plan);
    numbers::done(x)
}

pub fn sumbilak_index_carry_write(
    index: HeldShape,
    sets: &mut [u64],
    image: &mut [u8],
    chunk: u64,
    size: u64,
    plan: &[u8],
    n: u64,
) -> Answer
    ensures value { result
        ≡ done_answer (carry_answer_by (index_held index sets.old) image.old (Request.Write chunk size) plan.now n) }
    ensures image_after { image.new
        ≡ carry_image_by (index_held index sets.old) image.old (Request.Write chunk size) plan.now n }
    ensures sets_after { sets.new ≡ next_sets (index_held index sets.old) image.old (Request.Write chunk size) plan.now n }
{
    let x = lent::carry(index, sets, image, Request::Write { chunk, size }, plan, n);
    numbers::done(x)
}

pub fn sumbilak_index_carry_discard(
    index: HeldShape,
    sets: &mut [u64],
    image: &mut [u8],
    chunk: u64,
    plan: &[u8],
    n: u64,
) -> Answer
    ensures value { result
        ≡ done_answer (carry_answer_by (index_held index sets.old) image.old (Request.Discard chunk) plan.now n) }
    ensures image_after { image.new
        ≡ carry_image_by (index_held index sets.old) image.old (Request.Discard chunk) plan.now n }
    ensures sets_after { sets.new ≡ next_sets (index_held index sets.old) image.old (Request.Discard chunk) plan.now n }
{
    let x = lent::carry(index, sets, image, Request::Discard { chunk }, plan, n);
    numbers::done(x)
}

pub fn sumbilak_index_access(
    index: HeldShape,
    sets: &[u64],
    image: &[u8],
    write: bool,
    offset: u64,
    span: u64,
) -> Answer
    ensures { result ≡ access_answers (access_answer_by (index_held index sets.now) image.now write offset span) }
{
    let x = lent::access(index, sets, image, write, offset, span);
    numbers::access(x)
}

pub fn sumbilak_index_held(index: HeldShape, sets: &[u64], image: &[u8], chunk: u64) -> Answer
    ensures { result ≡ held_answer (held_of_by (index_held index sets.now) image.now chunk) }
{
    let x = lent::find_held(index, sets, image, chunk);
    numbers::held(x)
}

pub fn sumbilak_index_stored_size(
    index: HeldShape,
    sets: &[u64],
    image: &[u8],
    chunk: u64,
) -> Answer
    ensures { result ≡ counted_answer (size_answer_by (index_held index sets.now) image.now chunk) }
{
    let x = lent::stored_size(index, sets, image, chunk);
    numbers::stored(x)
}

pub fn sumbilak_index_report(index: HeldShape, sets: &[u64], image: &[u8]) -> ReportAnswer
    ensures { result ≡ reported_answer (report_answer_by (index_held index sets.now) image.now) }
{
    let x = lent::report(index, sets, image);
    numbers::reported(x)
}

pub fn sumbilak_index_alarm_count(
    index: HeldShape,
    sets: &[u64],
    image: &[u8],
    units: u64,
) -> Answer
    ensures { result ≡ alarm_answers (alarm_answer_by (index_held index sets.now) image.now (Level.Count units)) }
{
    let x = lent::alarm(index, sets, image, Level::Count(units));
    numbers::alarm(x)
}

pub fn sumbilak_index_alarm_fraction(
    index: HeldShape,
    sets: &[u64],
    image: &[u8],
    fraction: f64,
) -> Answer
    ensures { result ≡ alarm_answers (alarm_answer_by (index_held index sets.now) image.now (Level.Fraction fraction)) }
{
    let x = lent::alarm(index, sets, image, Level::Fraction(fraction));
    numbers::alarm(x)
}
