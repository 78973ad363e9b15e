//! The plan of a design: the kind of each process, the class of each input, and an order of the elements.

ghost use Rattle.std.specs.Prelude.{◌≡◌};
ghost use Rattle.vv_design.specs.Plan.{controls_of, start_of};

use sqlite_items::Items;
use vv_bits::S9;

/// The template of a process. Numbers are of net elements.
#[derive(Drop)]
pub enum Kind {
    Comb,
    /// It acts at an edge of its clock, which rises or falls.
    Clocked {
        clock: u32,
        rising: bool,
        controls: ControlList,
    },
    /// It acts while its enable has this level.
    Latch {
        enable: u32,
        level: bool,
        controls: ControlList,
    },
}

impl Kind {
    /// The asynchronous controls, the first one that acts first. A Comb process has none.
    pub fn controls(&self) -> &[Control]
        ensures { result.now ≡ controls_of self.now }
    {
        match self {
            Kind::Comb => &[],
            Kind::Clocked {
                clock: _,
                rising: _,
                controls,
            }
            | Kind::Latch {
                enable: _,
                level: _,
                controls,
            } => controls.as_slice(),
        }
    }
}

/// An asynchronous control: its element, and the level at which it acts, which is '1' where `level` is true.
#[derive(Clone, Copy, Debug, PartialEq, Eq)]
pub struct Control {
    pub elem: u32,
    pub level: bool,
}

/// The class of a top input. Clocks and controls have the level at which they start, which is '1' for true.
#[derive(Clone, Copy, Debug, PartialEq, Eq)]
pub enum Class {
    Clock(bool),
    Control(bool),
    Data,
}

impl Class {
    /// The value of each element of the input at power-on.
    pub fn start(self) -> S9
        ensures { result ≡ start_of self }
    {
        match self {
            Class::Clock(level) | Class::Control(level) => {
                if level { S9::One } else { S9::Zero }
            }
            Class::Data => S9::U,
        }
    }
}

/// The plan. `ranks` has a rank for each net element: that of an element which a Comb or Latch process assigns is greater than those
/// on which it depends. `classes` has a class for each top input in the order of the top's ports, and `kinds` a kind for each process.
#[derive(Drop)]
pub struct Plan {
    pub ranks: RankList,
    pub classes: ClassList,
    pub kinds: KindList,
}

pub type ControlList = Items<Control>;

pub type RankList = Items<u32>;

pub type ClassList = Items<Class>;

pub type KindList = Items<Kind>;
