//! How many words the cells of each class have.
ghost use Rattle.std.specs.Prelude.{◌≡◌, ◌+◌, ◌^◌, ◌<◌, true, false, cond, length};
ghost use Rattle.regions.specs.declared.rights.Class.{Class as SomeClass};
ghost use Rattle.ir_code.specs.Lawful.{all_hold, is_code, is_data};
ghost use Rattle.region_plan.specs.Homes.{is_same_class};
ghost use Rattle.region_plan.specs.Counted.{word_count, CountsCells, IsWithin};

use ir_code::Cell;
use regions::Class;

/// How many words there are of each class.
#[derive(Clone, Copy)]
pub struct WordCounts {
    pub open: u64,
    pub verified: u64,
    pub private: u64,
    pub constants: u64,
    pub logged: u64,
}

impl WordCounts {
    /// No words.
    pub fn new() -> WordCounts
        ensures { (class : SomeClass) → word_count result class ≡ 0 }
    {
        WordCounts {
            open: 0,
            verified: 0,
            private: 0,
            constants: 0,
            logged: 0,
        }
    }

    /// The words of a class.
    pub fn count_of(&self, class: Class) -> u64
        ensures { result ≡ word_count self.now class }
    {
        match class {
            Class::Open => self.open,
            Class::Verified => self.verified,
            Class::Private => self.private,
            Class::Constant => self.constants,
            Class::Logged => self.logged,
            Class::Code => 0,
        }
    }

    /// Counts more words of a class.
    pub fn add(&mut self, class: Class, words: u32)
        requires data { is_code class ≡ false }
        requires room { word_count self.old class < 2 ^ 62 }
        ensures { (other : SomeClass) → word_count self.new other
            ≡ word_count self.old other + cond (is_same_class other class) words 0 }
    {
        let words = words as u64;
        match class {
            Class::Open => self.open += words,
            Class::Verified => self.verified += words,
            Class::Private => self.private += words,
            Class::Constant => self.constants += words,
            Class::Logged => self.logged += words,
            Class::Code => unreachable!(),
        }
    }
}

/// The words of some cells, by their classes.
pub fn counts_of(cells: &[Cell]) -> WordCounts
    requires few { length cells.now < 2 ^ 28 }
    requires data { all_hold is_data cells.now ≡ true }
    ensures counts { CountsCells result cells.now }
    ensures within { IsWithin result (length cells.now) }
{
    let mut counts = WordCounts::new();
    for cell in cells {
        counts.add(cell.class, cell.words);
    }
    counts
}
