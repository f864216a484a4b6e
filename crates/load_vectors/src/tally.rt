ghost use Rattle.std.specs.Prelude.{◌≡◌, Some, if◌then◌else◌};
ghost use Rattle.load_vectors.specs.Tallies.{one_more, printed};

use std::fmt;

/// How many cases were seen, how many outcomes and shapes were compared, and how many of those differ.
#[derive(Clone, Copy, Default)]
pub struct Tally {
    pub cases: u32,
    pub loads: u32,
    pub shapes: u32,
    pub wrong: u32,
}

impl Tally {
    /// One case more.
    pub fn add_case(&mut self)
        ensures { self.new ≡ record self.old { cases = one_more self.old.cases } }
    {
        self.cases = self.cases.saturating_add(1);
    }

    /// One outcome more, which is as it was expected or not.
    pub fn add_load(&mut self, same: bool)
        ensures { self.new ≡ record self.old { loads = one_more self.old.loads; wrong = (if same then self.old.wrong else one_more self.old.wrong) } }
    {
        self.loads = self.loads.saturating_add(1);
        self.compare(same);
    }

    /// One shape more, which is as it was expected or not.
    pub fn add_shape(&mut self, same: bool)
        ensures { self.new ≡ record self.old { shapes = one_more self.old.shapes; wrong = (if same then self.old.wrong else one_more self.old.wrong) } }
    {
        self.shapes = self.shapes.saturating_add(1);
        self.compare(same);
    }

    fn compare(&mut self, same: bool)
        ensures { self.new ≡ record self.old { wrong = (if same then self.old.wrong else one_more self.old.wrong) } }
    {
        if !same {
            self.wrong = self.wrong.saturating_add(1);
        }
    }
}

/// As `269 cases, 269 outcomes and 75 shapes compared, 0 differ`.
impl fmt::Display for Tally {
    ghost output = { λ t. Some (printed t) };

    fn fmt<W: fmt::Write>(&self, f: &mut fmt::Formatter<W>) -> fmt::Result {
        let Tally {
            cases,
            loads,
            shapes,
            wrong,
        } = *self;
        write!(
            f,
            "{cases} cases, {loads} outcomes and {shapes} shapes compared, {wrong} differ"
        )
    }
}
