// The records of the subject, one for each thing: the definitions speak of these very types.
ghost use Rattle.std.specs.Prelude.{◌≡◌, ◌*◌, ◌^◌, ◌<◌};
ghost use Rattle.ring.specs.Demand.{in_front};
ghost use Rattle.ring.specs.LineSize.{needed, line_size_of};
ghost use Rattle.ring.specs.Routing.{by_way, way_of, way_number};
ghost use Rattle.ring.specs.RuleD.{whole_way};

use crate::TWO_FIBRES;
use family::Family;

/// A ring: its nodes, 1 to `nodes`, its fibres, and its family of line sizes. Link k joins nodes k and k + 1, the last link the last node and node 1.
#[derive(Clone, Copy)]
pub struct Ring {
    pub nodes: u32,
    pub fibres: u32,
    pub family: Family,
}

impl Ring {
    /// What a line must carry for an unsplit peak, in units: on two fibres twice it, since half of the bandwidth is kept for protection there.
    #[tactic(auto, unfolding(crate::specs::LineSize::needed))]
    pub fn must_carry(self, peak: u32) -> u32
        requires { 2 * peak < 2 ^ 32 }
        ensures { result ≡ needed self.fibres peak }
    {
        if self.fibres == TWO_FIBRES {
            2 * peak
        } else {
            peak
        }
    }

    /// Its line size for an unsplit peak in units, the smallest of its family's sizes that carries it, 0 if none does. A peak that is asked for is a sum of at most
    /// 1,024 amounts, so twice it fits.
    #[tactic(auto, unfolding(crate::specs::LineSize::line_size))]
    pub fn line_size(self, peak: u32) -> u32
        requires { 2 * peak < 2 ^ 32 }
        ensures { result ≡ line_size_of self peak }
    {
        self.family.size(self.must_carry(peak))
    }
}

/// A demand of so many units between two nodes, the first below the second in every table.
#[derive(Clone, Copy, Default)]
pub struct Demand {
    pub first: u32,
    pub second: u32,
    pub amount: u32,
}

impl Demand {
    /// Whether its front holds a link.
    pub fn in_front(self, link: u32) -> bool
        ensures { result ≡ in_front self link }
    {
        self.first <= link && link < self.second
    }
}

/// A demand and what a split routing sends over its front and over its back, in halves of a unit.
#[derive(Clone, Copy)]
pub struct Sent {
    pub demand: Demand,
    pub front: u32,
    pub back: u32,
}

impl Sent {
    /// Its way where it is not split: over its front where nothing is sent over its back.
    #[tactic(auto, unfolding(crate::specs::RuleD::whole_way))]
    pub fn whole_way(self) -> Way
        ensures { result ≡ whole_way self }
    {
        if self.back == 0 {
            Way::Front
        } else {
            Way::Back
        }
    }
}

/// The way of a demand that goes whole: over its front (F on a sheet) or over its back (B).
#[derive(Clone, Copy)]
pub enum Way {
    Front = 0,
    Back = 1,
}

impl Way {
    /// A way by its number: 0 is F, any other is B.
    pub fn of(number: u32) -> Self
        ensures { result ≡ way_of number }
    {
        if number == Way::Front as u32 {
            Way::Front
        } else {
            Way::Back
        }
    }

    /// Its number, 0 or 1.
    pub fn number(self) -> u32
        ensures { result ≡ way_number self }
    {
        self as u32
    }

    /// What goes over the front and what over the back, where so much goes this way whole.
    pub fn whole(self, amount: u32) -> (u32, u32)
        ensures front { result.0 ≡ by_way self amount 0 }
        ensures back { result.1 ≡ by_way self 0 amount }
    {
        match self {
            Way::Front => (amount, 0),
            Way::Back => (0, amount),
        }
    }
}

/// A demand as a split routing sends it, and its way where it goes whole.
#[derive(Clone, Copy)]
pub struct Routed {
    pub sent: Sent,
    pub way: Way,
}

/// Two links and the across number that is said of them, in units.
#[repr(C)]
#[derive(Clone, Copy)]
pub struct Cut {
    pub g: u32,
    pub h: u32,
    pub across: u32,
}

/// The figures of a sheet that are not of a row or of a link: R n fibres M, C g h across, Z unsplit-peak size; the peak is in units.
#[derive(Clone, Copy)]
pub struct Figures {
    pub ring: Ring,
    pub cut: Cut,
    pub unsplit_peak: u32,
    pub size: u32,
}

/// A link with its split load in halves and its unsplit load in units; C lends them as they stand here.
#[repr(C)]
#[derive(Clone, Copy, Default, PartialEq, Eq)]
pub struct Link {
    pub link: u32,
    pub split: u32,
    pub unsplit: u32,
}
