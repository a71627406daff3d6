// Marks: points of the trace that can be gone back to.
ghost use Rattle.std.specs.Prelude.{◌≡◌, ◌+◌, ◌-◌, ◌<◌, ◌≤◌, length, MatchResult, slice_set, slice_index_or};
ghost use Rattle.rules.specs.declared.fault.Fault.TheVariants.{NinthMark, NoMark};
ghost use Rattle.monitor.specs.declared.point.Point.{Point};

use crate::point::Point;
use rules::Fault;

// The most marks.
const MOST_MARKS: usize = 8;

// A table with a length and no `Vec`: no heap. The first `set` are set, the newest last.
#[derive(Drop)]
pub struct Marks {
    pub(crate) table: [Point; MOST_MARKS],
    pub(crate) set: usize,
    ghost few: { set ≤ 8 },
}

impl Marks {
    // None are set; a point fills the table.
    pub(crate) fn none(filler: Point) -> Marks
        ensures { result.set ≡ 0 }
    {
        Marks {
            table: [filler; MOST_MARKS],
            set: 0,
        }
    }

    // Sets a mark.
    pub(crate) fn push(&mut self, point: Point) -> Result<(), Fault>
        ensures { MatchResult result (λ _. (self.old.set < 8) × (self.old.set < length self.old.table) × (self.new.set ≡ self.old.set + 1) × (self.new.table ≡ slice_set self.old.table self.old.set point)) (λ f. (f ≡ NinthMark) × (8 ≤ self.old.set) × (self.new ≡ self.old)) }
    {
        if self.set >= MOST_MARKS {
            return Err(Fault::NinthMark);
        }
        self.table[self.set] = point;
        self.set += 1;
        Ok(())
    }

    // Takes the newest mark off.
    pub(crate) fn pop(&mut self) -> Result<Point, Fault>
        ensures { MatchResult result (λ point. (0 < self.old.set) × (self.new.set ≡ self.old.set - 1) × (self.new.table ≡ self.old.table) × ((d : Point) → slice_index_or self.old.table self.new.set d ≡ point)) (λ f. (f ≡ NoMark) × (self.old.set ≡ 0) × (self.new ≡ self.old)) }
    {
        if self.set == 0 {
            return Err(Fault::NoMark);
        }
        self.set -= 1;
        Ok(self.table[self.set])
    }
}
