// A set of curves: a master, three optional colours and a kind. Its members replaced, its lists
// checked, and the table of a channel.
// Every open function answers for any set, whatever its lists claim.
#![tactic(auto)]

ghost use Rattle.std.specs.Prelude.{◌≡◌, false};
ghost use Rattle.std.proofs.Math.Option.{none};
ghost use Rattle.sets.specs.declared.Colour.TheVariants.{Red, Green, Blue};
ghost use Rattle.sets.specs.Sets.{
  view_of,
  channel_of,
  empty_view,
  present_channel,
  MasterOnly,
  replace_master,
  replace_colour,
  replace_kind,
  curve_answer,
  channel_answer,
  set_answer,
  chosen,
};

use answers::{Answer, Refusal};
use points::{Curve, Heights, check_count};
use tables::CurveInterpolation;

// A colour's list, where it is present. Stays: document 01's "`Option<Curve>` a present mark beside
// the curve", and the edit `same_looks_behind_absent`.
#[derive(Clone, Copy)]
pub struct Channel {
    pub present: bool,
    pub curve: Curve,
}

#[derive(Clone, Copy, PartialEq, Eq)]
pub enum Colour {
    Red,
    Green,
    Blue,
}

#[derive(Clone, Copy)]
pub struct Curves {
    pub master: Curve,
    pub red: Channel,
    pub green: Channel,
    pub blue: Channel,
    pub interpolation: CurveInterpolation,
}

// The refusals of one list that may have such heights: its count, then its order, then its heights.
#[tactic(auto, unfolding(crate::specs::Sets::curve_answer))]
pub fn check_curve(curve: Curve, heights: Heights) -> Answer
    ensures { result ≡ curve_answer heights curve }
{
    check_count(curve.count)?;
    if !curve.is_rising() {
        return Err(Refusal::PointsNotRising);
    }
    curve.check_heights(heights)
}

impl Channel {
    pub fn absent() -> Channel
        ensures { (channel_of result ≡ none) × (result.present ≡ false) }
    {
        Channel {
            present: false,
            curve: Curve::empty(),
        }
    }

    pub fn of(curve: Curve) -> Channel
        ensures { result ≡ present_channel curve }
    {
        Channel {
            present: true,
            curve,
        }
    }

    #[tactic(auto, unfolding(crate::specs::Sets::channel_answer, crate::specs::Sets::curve_answer))]
    pub fn check(self, heights: Heights) -> Answer
        ensures { result ≡ channel_answer heights self }
    {
        if self.present {
            check_curve(self.curve, heights)
        } else {
            Ok(())
        }
    }
}

impl Curves {
    // The kind of a new set. What a record means that names none is `unnamed_kind` of `records`.
    pub const DEFAULT_INTERPOLATION: CurveInterpolation = CurveInterpolation::MonotoneCubicBox;

    // The set of this master alone, of the default kind.
    pub fn new(master: Curve) -> Curves
        ensures { MasterOnly master result }
    {
        Curves {
            master,
            red: Channel::absent(),
            green: Channel::absent(),
            blue: Channel::absent(),
            interpolation: Curves::DEFAULT_INTERPOLATION,
        }
    }

    // The empty set of the default kind, without colours.
    pub fn empty() -> Curves
        ensures { view_of result ≡ empty_view }
    {
        Curves::new(Curve::empty())
    }

    pub fn with_master(mut self, master: Curve) -> Curves
        ensures { result ≡ replace_master master self }
    {
        self.master = master;
        self
    }

    // Stays: three functions; one that takes the colour needs a match of three stores for these.
    pub fn with_red(mut self, c: Curve) -> Curves
        ensures { result ≡ replace_colour Red (present_channel c) self }
    {
        self.red = Channel::of(c);
        self
    }

    pub fn with_green(mut self, c: Curve) -> Curves
        ensures { result ≡ replace_colour Green (present_channel c) self }
    {
        self.green = Channel::of(c);
        self
    }

    pub fn with_blue(mut self, c: Curve) -> Curves
        ensures { result ≡ replace_colour Blue (present_channel c) self }
    {
        self.blue = Channel::of(c);
        self
    }

    pub fn with_interpolation(mut self, i: CurveInterpolation) -> Curves
        ensures { result ≡ replace_kind i self }
    {
        self.interpolation = i;
        self
    }

    // The present lists in their order: master, red, green, blue.
    #[tactic(auto, using(crate::proofs::AnswerLaws::set_answer_lem))]
    pub fn check(self, heights: Heights) -> Answer
        ensures { result ≡ set_answer heights self }
    {
        check_curve(self.master, heights)?;
        self.red.check(heights)?;
        self.green.check(heights)?;
        self.blue.check(heights)
    }
}

// The colour's own table or else the master's, lent on without copying.
// Stays: present is the channel's mark, "a present mark beside the curve", and the clause says
// `chosen present`.
pub fn chosen_table<'a>(present: bool, own: &'a [u8; 256], master: &'a [u8; 256]) -> &'a [u8; 256]
    ensures { result.now ≡ chosen present own.now master.now }
{
    if present { own } else { master }
}
