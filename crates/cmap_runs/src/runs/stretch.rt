//! Stretches of consecutive codes that one declaration decides, or that no declaration contains.

ghost use Rattle.std.specs.Prelude.{◌≡◌, ◌+◌, ◌<◌, ◌≤◌, ◌^◌, IfNone, IfSome, IsTrue, OnSome, length, map};
ghost use Rattle.std.specs.Option.{option_copied};
ghost use Rattle.cmap_runs.specs.Order.{IsFirstLeft, IsInOrder};
ghost use Rattle.cmap_runs.specs.Ranges.{contains, digits, runs_of};
ghost use Rattle.cmap_runs.specs.Stretches.{IsLongest, IsStretch};

use super::HasRange;
use super::held::Held;
use super::looks::Looks;
use std::marker::Model;

/// Consecutive codes: the same declaration is the last declaration that contains each of them, or no
/// declaration contains any of them.
#[derive(Drop)]
pub struct Stretch<'t, T> {
    /// The declaration that decides the codes; `None` if no declaration contains them.
    pub declaration: Option<&'t T>,
    /// The last of the codes.
    pub last: u32,
}

/// The stretches of the 32-bit codes from a first code on, in order.
#[derive(Drop)]
pub struct Stretches<'t, T: HasRange> {
    held: &'t Held<T>,
    /// How many runs end before the next code.
    ended: usize,
    next: u64,
}

// Contracts see the declarations, and the next code.
impl<'t, T: HasRange> Model for Stretches<'t, T> {
    ghost use Rattle.std.specs.Prelude.{◌≡◌, map};
    ghost use Rattle.cmap_runs.specs.Ranges.{runs_of};
    ghost use Rattle.cmap_runs.specs.Order.{IsFirstLeft};
    ghost use Rattle.cmap_runs.specs.Stretches.{CodesLeft};

    ghost Value = { CodesLeft T };

    ghost view = { λ stretches. record {
      declarations = stretches.held.now.declarations;
      next = stretches.next;
    } };

    ghost invariant = { λ stretches.
        (stretches.held.now.runs ≡ runs_of (map T.span stretches.held.now.declarations))
        × IsFirstLeft stretches.held.now.runs stretches.next stretches.ended };
}

impl<'t, T: HasRange> Stretches<'t, T> {
    /// The stretches of the codes from `first` on.
    pub(super) fn of(held: &'t Held<T>, first: u32, looks: &mut Looks) -> Stretches<'t, T>
        requires { held.now.runs ≡ runs_of (map T.span held.now.declarations) }
        ensures declarations { result.declarations ≡ held.now.declarations }
        ensures next { result.next ≡ first }
        ensures runs { looks.new.runs ≤ looks.old.runs + digits (length held.now.runs) }
        ensures grows { looks.old.runs ≤ looks.new.runs }
        ensures none { looks.new.declarations ≡ looks.old.declarations }
    {
        let ended = ended_before(held, first, looks);
        let next = u64::from(first);
        Stretches { held, ended, next }
    }

    /// The stretch that begins with the next code; `None` after the last code. The call looks at one
    /// run at most.
    pub fn next(&mut self, looks: &mut Looks) -> Option<Stretch<'t, T>>
        ensures same { IfSome result (λ stretch. IsStretch T.span self.old.declarations self.old.next
            stretch.last (option_copied stretch.declaration)) }
        ensures contains { IfSome result (λ stretch. IfSome stretch.declaration
            (λ declaration. IsTrue (contains (T.span declaration.now) self.old.next))) }
        ensures longest { IfSome result (λ stretch.
            IsLongest (map T.span self.old.declarations) self.old.next stretch.last) }
        ensures within { IfSome result
            (λ stretch. (self.old.next ≤ stretch.last) × (stretch.last < 2 ^ 32)) }
        ensures next { IfSome result (λ stretch. self.new.next ≡ stretch.last + 1) }
        ensures none { IfNone result (2 ^ 32 ≤ self.old.next) }
        ensures declarations { self.new.declarations ≡ self.old.declarations }
        ensures looks { (looks.new.runs ≤ looks.old.runs + 1)
            × (looks.new.declarations ≤ looks.old.declarations + 1) }
        ensures grows { (looks.old.runs ≤ looks.new.runs)
            × (looks.old.declarations ≤ looks.new.declarations) }

        // The declaration of the answer was looked at.
        ensures looked { IfSome result (λ stretch. OnSome stretch.declaration
            ((looks.old.runs + 1 ≤ looks.new.runs)
            × (looks.old.declarations + 1 ≤ looks.new.declarations))) }
    {
        let code = u32::try_from(self.next).ok()?;
        let stretch = stretch_at(self.held, &mut self.ended, code, looks);
        self.next = u64::from(stretch.last) + 1;
        Some(stretch)
    }
}

/// The stretch that begins with the code. `ended` is the number of runs that end before the code;
/// afterwards it is the number of runs that end before the code after the stretch.
fn stretch_at<'t, T: HasRange>(
    held: &'t Held<T>,
    ended: &mut usize,
    code: u32,
    looks: &mut Looks,
) -> Stretch<'t, T>
    requires runs { held.now.runs ≡ runs_of (map T.span held.now.declarations) }
    requires ended { IsFirstLeft held.now.runs code ended.old }
    ensures same { IsStretch T.span held.now.declarations code result.last
        (option_copied result.declaration) }
    ensures contains { IfSome result.declaration
        (λ declaration. IsTrue (contains (T.span declaration.now) code)) }
    ensures longest { IsLongest (map T.span held.now.declarations) code result.last }
    ensures within { (code ≤ result.last) × (result.last < 2 ^ 32) }
    ensures ended { IsFirstLeft held.now.runs (result.last + 1) ended.new }
    ensures looks { (looks.new.runs ≤ looks.old.runs + 1)
        × (looks.new.declarations ≤ looks.old.declarations + 1) }
    ensures grows { (looks.old.runs ≤ looks.new.runs)
        × (looks.old.declarations ≤ looks.new.declarations) }
    ensures looked { OnSome result.declaration ((looks.old.runs + 1 ≤ looks.new.runs)
        × (looks.old.declarations + 1 ≤ looks.new.declarations)) }
{
    if *ended >= held.run_count() {
        return Stretch {
            declaration: None,
            last: u32::MAX,
        };
    }
    let run = held.run(*ended, looks);
    if code < run.low {
        return Stretch {
            declaration: None,
            last: run.low - 1,
        };
    }
    *ended += 1;
    Stretch {
        declaration: Some(held.declaration(run.index, looks)),
        last: run.high,
    }
}

/// How many runs end before the code.
fn ended_before<T: HasRange>(held: &Held<T>, code: u32, looks: &mut Looks) -> usize
    requires { IsInOrder held.now.runs }
    ensures first { IsFirstLeft held.now.runs code result }
    ensures runs { looks.new.runs ≤ looks.old.runs + digits (length held.now.runs) }
    ensures grows { looks.old.runs ≤ looks.new.runs }
    ensures declarations { looks.new.declarations ≡ looks.old.declarations }
{
    let (mut low, mut high) = (0, held.run_count());
    while low < high {
        let middle = low + (high - low) / 2;
        if held.run(middle, looks).high < code {
            low = middle + 1;
        } else {
            high = middle;
        }
    }
    low
}
