// The index by value: each call takes it, and gives the next one back beside its answer. With a stale or made-up one, or an image altered otherwise, a call
// ends inside its slices and a refusal alters nothing lent; no more is asked of it.
ghost use Rattle.std.specs.Prelude.{◌≡◌, ◌≤◌, length, IfOk};
ghost use Rattle.index.specs.Values.{held, first_index};
ghost use Rattle.indexed.specs.Calls.{plan_answer_by, plan_out_by, checked_by, carry_answer_by, carry_image_by, next_index, access_answer_by, held_of_by, size_answer_by, report_answer_by, alarm_answer_by};

use crate::{Index, Next};
use access::{Access, Extent};
use indexed::{HeldShape, lent, opening};
use layout::Refusal;
use renewal::SET_WORDS;
use report::{Alarm, Level, Report};
use steps::Request;

impl Index {
    // Judges an image, and makes its first index: refusals 1 to 6.
    pub fn open(image: &[u8]) -> Result<Index, Refusal>
        ensures { result ≡ first_index image.now }
    {
        let mut sets = [0u64; SET_WORDS];
        let shape = opening::open(image, &mut sets)?;
        Ok(Index { shape, sets })
    }

    // Plans a write of `size` compressed bytes to a chunk, and stores the plan in `out`: refusals 1 to 4 and 7 to 10.
    pub fn plan_write(
        self,
        image: &[u8],
        chunk: u64,
        size: u64,
        out: &mut [u8],
    ) -> Next<Result<u32, Refusal>>
        ensures planned_value { (result.answer ≡ plan_answer_by (held self) image.now (Request.Write chunk size) (length out.old)) × (result.index ≡ self) }
        ensures out_after { out.new ≡ plan_out_by (held self) image.now (Request.Write chunk size) out.old }
    {
        let answer = lent::plan_write(
            HeldShape::from(self.shape),
            &self.sets,
            image,
            chunk,
            size,
            out,
        );
        Next {
            answer,
            index: self,
        }
    }

    // Plans a discard of a chunk, and stores the plan in `out`: refusals 1 to 4, 7 and 10.
    pub fn plan_discard(
        self,
        image: &[u8],
        chunk: u64,
        out: &mut [u8],
    ) -> Next<Result<u32, Refusal>>
        ensures planned_value { (result.answer ≡ plan_answer_by (held self) image.now (Request.Discard chunk) (length out.old)) × (result.index ≡ self) }
        ensures out_after { out.new ≡ plan_out_by (held self) image.now (Request.Discard chunk) out.old }
    {
        let answer = lent::plan_discard(HeldShape::from(self.shape), &self.sets, image, chunk, out);
        Next {
            answer,
            index: self,
        }
    }

    // Whether a plan keeps the five rules for a request: refusals 1 to 4, 7, 8 and 11.
    pub fn check(self, image: &[u8], request: Request, plan: &[u8]) -> Next<Result<(), Refusal>>
        ensures { (result.answer ≡ checked_by (held self) image.now request plan.now) × (result.index ≡ self) }
    {
        let answer = lent::check(
            HeldShape::from(self.shape),
            &self.sets,
            image,
            request,
            plan,
        );
        Next {
            answer,
            index: self,
        }
    }

    // Checks a plan and carries its first `n` steps out on the image: refusals 1 to 4, 7, 8 and 11.
    pub fn carry(
        mut self,
        image: &mut [u8],
        request: Request,
        plan: &[u8],
        n: u64,
    ) -> Next<Result<(), Refusal>>
        ensures checked_value { (result.answer ≡ carry_answer_by (held self) image.old request plan.now n)
            × (held result.index ≡ next_index (held self) image.old request plan.now n) }
        ensures image_after { image.new ≡ carry_image_by (held self) image.old request plan.now n }
    {
        let answer = lent::carry(
            HeldShape::from(self.shape),
            &mut self.sets,
            image,
            request,
            plan,
            n,
        );
        Next {
            answer,
            index: self,
        }
    }

    // What a read or a write of a byte range within one chunk reads first: refusals 1 to 3 and 7.
    pub fn access(
        self,
        image: &[u8],
        write: bool,
        offset: u64,
        span: u64,
    ) -> Next<Result<Access, Refusal>>
        ensures { (result.answer ≡ access_answer_by (held self) image.now write offset span) × (result.index ≡ self) }
    {
        let answer = lent::access(
            HeldShape::from(self.shape),
            &self.sets,
            image,
            write,
            offset,
            span,
        );
        Next {
            answer,
            index: self,
        }
    }

    // A chunk's held words: whether the question is answered, and where they stand in the image. Refusals 1 to 4 and 7.
    pub fn find_held(self, image: &[u8], chunk: u64) -> Next<Result<Extent, Refusal>>
        ensures held_value { (result.answer ≡ held_of_by (held self) image.now chunk) × (result.index ≡ self) }
        ensures within { IfOk result.answer (λ e. (e.start ≤ e.end) × (e.end ≤ length image.now)) }
    {
        let answer = lent::find_held(HeldShape::from(self.shape), &self.sets, image, chunk);
        Next {
            answer,
            index: self,
        }
    }

    // A chunk's stored size, 0 for an unmapped chunk: refusals 1 to 4 and 7.
    pub fn stored_size(self, image: &[u8], chunk: u64) -> Next<Result<u64, Refusal>>
        ensures { (result.answer ≡ size_answer_by (held self) image.now chunk) × (result.index ≡ self) }
    {
        let answer = lent::stored_size(HeldShape::from(self.shape), &self.sets, image, chunk);
        Next {
            answer,
            index: self,
        }
    }

    // The report by what the sets say: refusals 1 to 3.
    pub fn report(self, image: &[u8]) -> Next<Result<Report, Refusal>>
        ensures { (result.answer ≡ report_answer_by (held self) image.now) × (result.index ≡ self) }
    {
        let answer = lent::report(HeldShape::from(self.shape), &self.sets, image);
        Next {
            answer,
            index: self,
        }
    }

    // Whether the alarm sounds at a level by what the sets say: refusals 1 to 3 and 12.
    pub fn alarm(self, image: &[u8], level: Level) -> Next<Result<Alarm, Refusal>>
        ensures { (result.answer ≡ alarm_answer_by (held self) image.now level) × (result.index ≡ self) }
    {
        let answer = lent::alarm(HeldShape::from(self.shape), &self.sets, image, level);
        Next {
            answer,
            index: self,
        }
    }
}
