//! A program in the making. It is made from its end: what comes next has its places already.
ghost use Rattle.std.specs.Prelude.{◌≡◌};
ghost use Rattle.rp_program.specs.declared.draft.Refusal.TheVariants.{OutOfMemory};

use crate::place::{Next, Place};
use crate::sets::{set_size, sets, variables};
use rp_words::{Form, MAX_PARTS, factorial, permutation_at};
use std::alloc::{AllocError, AllocFailed, Global};
use std::rc::Rc;

/// Why a pattern has no program.
#[derive(Clone, Copy)]
pub(crate) enum Refusal {
    /// It would be too large, or take too long to make.
    TooLarge,
    /// Memory was refused.
    OutOfMemory,
}

impl From<AllocError> for Refusal {
    ghost from_gives = { λ _ fault. fault ≡ OutOfMemory };

    fn from(_: AllocError) -> Refusal {
        Refusal::OutOfMemory
    }
}

impl<T: Drop> From<AllocFailed<T>> for Refusal {
    ghost from_gives = { λ _ fault. fault ≡ OutOfMemory };

    fn from(_: AllocFailed<T>) -> Refusal {
        Refusal::OutOfMemory
    }
}

/// The places made so far, and how much more may be made.
#[derive(Drop)]
pub(crate) struct Draft {
    pub alloc: Global,
    pub places: Vec<Place>,
    /// The most places.
    pub most: u32,
    /// How many more parts of the pattern may be looked at: a part counts each time.
    pub looks: u64,
}

impl Draft {
    ghost use Rattle.std.specs.Prelude.{◌≡◌, ℕ, ◌∷◌, ◌++◌, [], ◌<◌, ◌≤◌, IfOk, OnOk, Some, None, length, List, Option, Bool};
    ghost use Rattle.rp_words.specs.declared.word.End.{End};
    ghost use Rattle.rp_words.specs.declared.form.Form.TheVariants.{Variable, Empty, PartitionStart, PartitionEnd};
    ghost use Rattle.std.specs.List.{AllByRecursion};
    ghost use Rattle.rp_words.specs.Turns.{iterations, orders_from};
    ghost use Rattle.rp_words.specs.Permutations.{factorial};
    ghost use Rattle.rp_words.specs.Words.{further};
    ghost use Rattle.rp_program.specs.declared.place.Place.{Place};
    ghost use Rattle.rp_program.specs.Parts.{form_part, form_parts, joined, chained, in_order};
    ghost use Rattle.rp_program.specs.Places.{at, parts};
    ghost use Rattle.rp_program.specs.Sets.{variable_parts, ways, way_or, other_orders, PutsWays};
    ghost use Rattle.rp_program.specs.Drafts.{IsWithin, LeadsInto, LeadsInOrder, Chooses, ChoosesPlace, StopsOr, Stops, StartsPlace, Pushes, Puts, Opens, LeadsBack, Closes, IsOption, any_number, Begins};

    /// No places yet. Each part of a pattern may be looked at a few times for each place.
    pub(crate) fn new(alloc: Global, most: u32) -> Draft
        ensures { result.places.items ≡ [] }
    {
        Draft {
            alloc,
            places: Vec::new(alloc),
            most,
            looks: 1000 + 16 * most as u64,
        }
    }

    /// The places of a whole pattern, before its match. The first one is the result.
    pub(crate) fn whole(&mut self, form: &Form) -> Result<u32, Refusal>
        requires { self.old.places.items ≡ [] }
        ensures { IfOk result (Begins form.now self.new.places.items) }
    {
        let end = self.push(Place::Match)?;
        let first = self.before(form, false, Next::same(end))?;
        Ok(first.moved)
    }

    /// The places of a form, before what comes next.
    #[cycle(form)]
    pub(crate) fn before(
        &mut self,
        form: &Form,
        excluded: bool,
        next: Next,
    ) -> Result<Next, Refusal>
        requires { IsWithin (length self.old.places.items) next }
        ensures { IfOk result (LeadsInto (λ n e. form_part n e form.now excluded) next self.old.places.items self.new.places.items) }
    {
        self.look()?;
        match form {
            Form::Variable(var) => self.variable(*var, excluded, next),
            Form::Empty => Ok(next),
            Form::Concatenation(first, second) => {
                let between = self.before(second, excluded, next)?;
                self.before(first, excluded, between)
            }
            Form::Alternation(first, second) => {
                let preferred = self.before(first, excluded, next)?;
                let other = self.before(second, excluded, next)?;
                self.choose(preferred, other)
            }
            Form::PartitionStart => self.start(next),
            Form::PartitionEnd => self.end(next),
            Form::Permute(parts) => self.permute(parts, excluded, next),
            Form::Exclusion(body) => self.before(body, true, next),
            Form::Quantified {
                body,
                lower,
                upper,
                reluctant,
            } => self.quantified(body, excluded, *lower, *upper, *reluctant, next),
        }
    }

    /// The required iterations of a part, and then the others.
    #[cycle(form)]
    fn quantified(
        &mut self,
        body: &Rc<Form>,
        excluded: bool,
        lower: u32,
        upper: Option<u32>,
        reluctant: bool,
        next: Next,
    ) -> Result<Next, Refusal>
        requires { IsWithin (length self.old.places.items) next }
        ensures { IfOk result (LeadsInto (λ n e. iterations lower (further n lower upper) reluctant (form_part n e body.now.value excluded)) next self.old.places.items self.new.places.items) }
    {
        let mut after = self.further(body, excluded, lower, upper, reluctant, next)?;
        for _required in 0..lower {
            after = self.before(body, excluded, after)?;
        }
        Ok(after)
    }

    /// The iterations that may follow the required ones.
    #[cycle(form)]
    fn further(
        &mut self,
        body: &Rc<Form>,
        excluded: bool,
        lower: u32,
        upper: Option<u32>,
        reluctant: bool,
        next: Next,
    ) -> Result<Next, Refusal>
        requires { IsWithin (length self.old.places.items) next }
        ensures { IfOk result (LeadsInto (λ n e. iterations 0 (further n lower upper) reluctant (form_part n e body.now.value excluded)) next self.old.places.items self.new.places.items) }
    {
        match upper {
            None => self.any_number(body, excluded, reluctant, next),
            Some(upper) => {
                let count = upper.saturating_sub(lower);
                self.optional(body, excluded, reluctant, count, next)
            }
        }
    }

    /// Any number of iterations, each of which takes a row.
    #[cycle(form)]
    fn any_number(
        &mut self,
        body: &Rc<Form>,
        excluded: bool,
        reluctant: bool,
        next: Next,
    ) -> Result<Next, Refusal>
        requires { IsWithin (length self.old.places.items) next }
        ensures { IfOk result (LeadsInto (any_number body.now.value excluded reluctant) next self.old.places.items self.new.places.items) }
    {
        let place = self.open_loop(body, excluded, reluctant, next.moved)?;
        let inner = self.before(
            body,
            excluded,
            Next {
                unmoved: None,
                moved: place,
            },
        )?;
        self.close_loop(place, inner.unmoved, body, excluded, reluctant, next)
    }

    /// At most so many iterations, each of which takes a row.
    #[cycle(form)]
    fn optional(
        &mut self,
        body: &Rc<Form>,
        excluded: bool,
        reluctant: bool,
        count: u32,
        next: Next,
    ) -> Result<Next, Refusal>
        requires { IsWithin (length self.old.places.items) next }
        ensures { IfOk result (LeadsInto (λ n e. iterations 0 count reluctant (form_part n e body.now.value excluded)) next self.old.places.items self.new.places.items) }
    {
        if count == 0 {
            return Ok(next);
        }
        let fewer = self.optional_from(body, excluded, reluctant, count - 1, next.moved)?;
        let inner = self.before(
            body,
            excluded,
            Next {
                unmoved: None,
                moved: fewer,
            },
        )?;
        self.stop_or(reluctant, inner.unmoved, next)
    }

    /// The same, before a place.
    #[cycle(form)]
    fn optional_from(
        &mut self,
        body: &Rc<Form>,
        excluded: bool,
        reluctant: bool,
        count: u32,
        stop: u32,
    ) -> Result<u32, Refusal>
        requires { stop < length self.old.places.items }
        ensures { IfOk result (λ place. Puts (λ n e i. joined (iterations 0 count reluctant (form_part n e body.now.value excluded)) (at (parts n e self.old.places.items) stop))
            self.old.places.items self.new.places.items (Some place)) }
    {
        let mut place = stop;
        for _further in 0..count {
            let inner = self.before(
                body,
                excluded,
                Next {
                    unmoved: None,
                    moved: place,
                },
            )?;
            place = self.stop_or_place(reluctant, inner.unmoved, stop)?;
        }
        Ok(place)
    }

    /// The parts of a PERMUTE in any order.
    #[cycle(form)]
    fn permute(&mut self, parts: &[Rc<Form>], excluded: bool, next: Next) -> Result<Next, Refusal>
        requires { IsWithin (length self.old.places.items) next }
        ensures { IfOk result (LeadsInto (λ n e. orders_from 0 (form_parts n e parts.now excluded)) next self.old.places.items self.new.places.items) }
    {
        if parts.len() > MAX_PARTS {
            return Err(Refusal::TooLarge);
        }
        match variables(self.alloc, parts)? {
            Some(vars) => self.any_order(&vars, excluded, next),
            None => self.each_order(parts, excluded, next),
        }
    }

    /// The parts in each order.
    #[cycle(form)]
    fn each_order(
        &mut self,
        parts: &[Rc<Form>],
        excluded: bool,
        next: Next,
    ) -> Result<Next, Refusal>
        requires few { length parts.now ≤ MAX_PARTS }
        requires next { IsWithin (length self.old.places.items) next }
        ensures { IfOk result (LeadsInto (λ n e. orders_from 0 (form_parts n e parts.now excluded)) next self.old.places.items self.new.places.items) }
    {
        let last = factorial(parts.len()) - 1;
        let mut orders = self.order(parts, last, excluded, next)?;
        for behind in 0..last {
            let first = self.order(parts, last - 1 - behind, excluded, next)?;
            orders = self.choose(first, orders)?;
        }
        Ok(orders)
    }

    /// The parts in the order of this number, counted from 0.
    #[cycle(form)]
    fn order(
        &mut self,
        parts: &[Rc<Form>],
        number: usize,
        excluded: bool,
        next: Next,
    ) -> Result<Next, Refusal>
        requires few { length parts.now ≤ MAX_PARTS }
        requires number { number < factorial (length parts.now) }
        requires next { IsWithin (length self.old.places.items) next }
        ensures { IfOk result (LeadsInOrder parts.now number excluded next self.old.places.items self.new.places.items) }
    {
        let order = permutation_at(self.alloc, parts.len(), number)?;
        self.in_order(parts, &order, excluded, next)
    }

    /// The parts in an order.
    #[cycle(form)]
    fn in_order(
        &mut self,
        parts: &[Rc<Form>],
        order: &[usize],
        excluded: bool,
        next: Next,
    ) -> Result<Next, Refusal>
        requires order { AllByRecursion (λ k. k < length parts.now) order.now }
        requires next { IsWithin (length self.old.places.items) next }
        ensures { IfOk result (LeadsInto (λ n e. chained (in_order (form_parts n e parts.now excluded) order.now)) next self.old.places.items self.new.places.items) }
    {
        let mut after = next;
        for taken in 0..order.len() {
            let part = order[order.len() - 1 - taken];
            after = self.before(&parts[part], excluded, after)?;
        }
        Ok(after)
    }

    /// Variables in any order: a place for each set of those that are still to be mapped.
    fn any_order(&mut self, vars: &[usize], excluded: bool, next: Next) -> Result<Next, Refusal>
        requires few { length vars.now ≤ MAX_PARTS }
        requires some { 0 < length vars.now }
        requires next { IsWithin (length self.old.places.items) next }
        ensures { IfOk result (LeadsInto (λ n e. orders_from 0 (variable_parts n e vars.now excluded)) next
            self.old.places.items self.new.places.items) }
    {
        let mut place = next.moved;
        let mut table = Vec::new(self.alloc);
        table.push(place)?;
        for _set in 1..sets(vars.len()) {
            place = self.set_place(vars, &table, excluded)?;
            table.push(place)?;
        }
        Ok(Next::same(place))
    }

    /// The place of the next set, behind those in the table.
    fn set_place(&mut self, vars: &[usize], table: &[u32], excluded: bool) -> Result<u32, Refusal>
        requires few { length vars.now ≤ MAX_PARTS }
        requires table { AllByRecursion (λ q. q < length self.old.places.items) table.now }
        ensures { IfOk result (λ place. PutsWays (ways vars.now table.now) excluded
            (other_orders vars.now (length table.now)) self.old.places.items self.new.places.items (Some place)) }
    {
        let orders = factorial(set_size(vars, table.len()));
        let place = self.any_way(vars, table, excluded, (orders - 1) as u32)?;
        place.ok_or(Refusal::TooLarge)
    }

    /// Any variable of the set whose number is the length of the table, and then the others.
    fn any_way(
        &mut self,
        vars: &[usize],
        table: &[u32],
        excluded: bool,
        others: u32,
    ) -> Result<Option<u32>, Refusal>
        requires few { length vars.now ≤ MAX_PARTS }
        requires table { AllByRecursion (λ q. q < length self.old.places.items) table.now }
        ensures { IfOk result (PutsWays (ways vars.now table.now) excluded others
            self.old.places.items self.new.places.items) }
    {
        let Some((var, rest)) = vars.split_first() else {
            return Ok(None);
        };
        let without = sets(rest.len());
        if table.len() < without {
            return self.any_way(rest, table, excluded, others);
        }
        let (_, with) = table.split_at(without);
        let other = self.any_way(rest, with, excluded, others)?;
        let next = table[table.len() - without];
        let place = self.way_or(*var, excluded, next, other, others)?;
        Ok(Some(place))
    }

    /// A row mapped to a variable, and then `next`; or else a place, if there is one.
    fn way_or(
        &mut self,
        var: usize,
        excluded: bool,
        next: u32,
        other: Option<u32>,
        others: u32,
    ) -> Result<u32, Refusal>
        requires next { next < length self.old.places.items }
        requires other { IsOption (length self.old.places.items) other }
        ensures { IfOk result (λ place. Puts
            (λ n e i. way_or n e (parts n e self.old.places.items) excluded others (var, next) other)
            self.old.places.items self.new.places.items (Some place)) }
    {
        let place = self.push(Place::Row {
            var,
            excluded,
            next,
        })?;
        let Some(other) = other else {
            return Ok(place);
        };
        self.push(Place::RowSplit {
            preferred: place,
            other,
            others,
        })
    }

    /// Counts a part that is looked at.
    fn look(&mut self) -> Result<(), Refusal>
        ensures { self.new.places ≡ self.old.places }
    {
        if self.looks == 0 {
            return Err(Refusal::TooLarge);
        }
        self.looks -= 1;
        Ok(())
    }

    /// A further place. Its number is how many there were.
    fn push(&mut self, place: Place) -> Result<u32, Refusal>
        ensures { IfOk result (Pushes place self.old.places.items self.new.places.items) }
    {
        let number = self.places.len();
        if number >= self.most as usize {
            return Err(Refusal::TooLarge);
        }
        self.places.push(place)?;
        Ok(number as u32)
    }

    /// One row, mapped to a variable.
    fn variable(&mut self, var: usize, excluded: bool, next: Next) -> Result<Next, Refusal>
        requires { IsWithin (length self.old.places.items) next }
        ensures { IfOk result (LeadsInto (λ n e. form_part n e (Variable var) excluded) next self.old.places.items self.new.places.items) }
    {
        let place = self.push(Place::Row {
            var,
            excluded,
            next: next.moved,
        })?;
        Ok(Next::same(place))
    }

    /// `^`.
    fn start(&mut self, next: Next) -> Result<Next, Refusal>
        requires { IsWithin (length self.old.places.items) next }
        ensures { IfOk result (λ r. (x : Bool) → LeadsInto (λ n e. form_part n e PartitionStart x) next self.old.places.items self.new.places.items r) }
    {
        if next.is_same() {
            let place = self.push(Place::PartitionStart { next: next.moved })?;
            return Ok(Next::same(place));
        }
        let unmoved = self.start_place(next.unmoved)?;
        let moved = self.push(Place::PartitionStart { next: next.moved })?;
        Ok(Next { unmoved, moved })
    }

    /// `^` before a place, if there is one.
    fn start_place(&mut self, next: Option<u32>) -> Result<Option<u32>, Refusal>
        requires { IsOption (length self.old.places.items) next }
        ensures { IfOk result (StartsPlace next self.old.places.items self.new.places.items) }
    {
        let Some(next) = next else {
            return Ok(None);
        };
        let place = self.push(Place::PartitionStart { next })?;
        Ok(Some(place))
    }

    /// `$`.
    fn end(&mut self, next: Next) -> Result<Next, Refusal>
        requires { IsWithin (length self.old.places.items) next }
        ensures { IfOk result (λ r. (x : Bool) → LeadsInto (λ n e. form_part n e PartitionEnd x) next self.old.places.items self.new.places.items r) }
    {
        if next.is_same() {
            let place = self.push(Place::PartitionEnd { next: next.unmoved })?;
            return Ok(Next::same(place));
        }
        let unmoved = self.push(Place::PartitionEnd { next: next.unmoved })?;
        let moved = self.push(Place::PartitionEnd {
            next: Some(next.moved),
        })?;
        Ok(Next {
            unmoved: Some(unmoved),
            moved,
        })
    }

    /// Either of two, of which the first is preferred.
    fn choose(&mut self, preferred: Next, other: Next) -> Result<Next, Refusal>
        requires preferred { IsWithin (length self.old.places.items) preferred }
        requires other { IsWithin (length self.old.places.items) other }
        ensures { IfOk result (Chooses preferred other self.old.places.items self.new.places.items) }
    {
        if preferred.is_same() && other.is_same() {
            let place = self.push(Place::Split {
                preferred: preferred.moved,
                other: other.moved,
            })?;
            return Ok(Next::same(place));
        }
        let unmoved = self.choose_place(preferred.unmoved, other.unmoved)?;
        let moved = self.push(Place::Split {
            preferred: preferred.moved,
            other: other.moved,
        })?;
        Ok(Next { unmoved, moved })
    }

    /// Either of two places, of which the first is preferred, or the one that there is.
    fn choose_place(
        &mut self,
        preferred: Option<u32>,
        other: Option<u32>,
    ) -> Result<Option<u32>, Refusal>
        requires preferred { IsOption (length self.old.places.items) preferred }
        requires other { IsOption (length self.old.places.items) other }
        ensures { IfOk result (ChoosesPlace preferred other self.old.places.items self.new.places.items) }
    {
        match (preferred, other) {
            (None, other) => Ok(other),
            (preferred, None) => Ok(preferred),
            (Some(preferred), Some(other)) => {
                let place = self.push(Place::Split { preferred, other })?;
                Ok(Some(place))
            }
        }
    }

    /// Another iteration, or to stop.
    fn stop_or(
        &mut self,
        reluctant: bool,
        another: Option<u32>,
        next: Next,
    ) -> Result<Next, Refusal>
        requires another { IsOption (length self.old.places.items) another }
        requires next { IsWithin (length self.old.places.items) next }
        ensures { IfOk result (Stops reluctant another next self.old.places.items self.new.places.items) }
    {
        let moved = self.stop_or_place(reluctant, another, next.moved)?;
        if next.is_same() {
            return Ok(Next::same(moved));
        }
        let unmoved = self.stop_or_none(reluctant, another, next.unmoved)?;
        Ok(Next { unmoved, moved })
    }

    /// Another iteration, if it can take a row, or to stop at a place.
    fn stop_or_place(
        &mut self,
        reluctant: bool,
        another: Option<u32>,
        stop: u32,
    ) -> Result<u32, Refusal>
        requires another { IsOption (length self.old.places.items) another }
        requires stop { stop < length self.old.places.items }
        ensures { IfOk result (λ place. StopsOr reluctant another (Some stop) self.old.places.items self.new.places.items (Some place)) }
    {
        let Some(another) = another else {
            return Ok(stop);
        };
        if reluctant {
            return self.push(Place::Split {
                preferred: stop,
                other: another,
            });
        }
        self.push(Place::Split {
            preferred: another,
            other: stop,
        })
    }

    /// Another iteration, if it can take a row, or to stop at a place, if there is one.
    fn stop_or_none(
        &mut self,
        reluctant: bool,
        another: Option<u32>,
        stop: Option<u32>,
    ) -> Result<Option<u32>, Refusal>
        requires another { IsOption (length self.old.places.items) another }
        requires stop { IsOption (length self.old.places.items) stop }
        ensures { IfOk result (StopsOr reluctant another stop self.old.places.items self.new.places.items) }
    {
        if reluctant {
            return self.choose_place(stop, another);
        }
        self.choose_place(another, stop)
    }

    /// A loop whose two choices are to be made.
    fn open_loop(
        &mut self,
        body: &Rc<Form>,
        excluded: bool,
        reluctant: bool,
        next: u32,
    ) -> Result<u32, Refusal>
        ensures { IfOk result (Opens body.now.value excluded reluctant next self.old.places.items self.new.places.items) }
    {
        self.push(Place::Loop {
            preferred: next,
            other: next,
            body: body.clone()?,
            excluded,
            reluctant,
            next,
        })
    }

    /// The loop, whose iteration begins at `another`. Where no iteration can take a row, there is no loop.
    fn close_loop(
        &mut self,
        place: u32,
        another: Option<u32>,
        body: &Rc<Form>,
        excluded: bool,
        reluctant: bool,
        next: Next,
    ) -> Result<Next, Refusal>
        requires place { place < length self.old.places.items }
        requires another { IsOption (length self.old.places.items) another }
        requires next { IsWithin place next }
        ensures { IfOk result (λ r. (start : List Place) →
            LeadsBack body.now.value excluded reluctant next place another start self.old.places.items →
            LeadsInto (any_number body.now.value excluded reluctant) next start self.new.places.items r) }
    {
        let Some(another) = another else {
            self.places.truncate(place as usize);
            return Ok(next);
        };
        self.set_loop(place, another, body, excluded, reluctant, next)?;
        if next.is_same() {
            return Ok(Next::same(place));
        }
        let unmoved = self.stop_or_none(reluctant, Some(another), next.unmoved)?;
        Ok(Next {
            unmoved,
            moved: place,
        })
    }

    /// Sets the two choices of the loop.
    fn set_loop(
        &mut self,
        place: u32,
        another: u32,
        body: &Rc<Form>,
        excluded: bool,
        reluctant: bool,
        next: Next,
    ) -> Result<(), Refusal>
        requires { place < length self.old.places.items }
        ensures { OnOk result (Closes body.now.value excluded reluctant next place another self.old.places.items self.new.places.items) }
    {
        let body = body.clone()?;
        if reluctant {
            self.places[place as usize] = Place::Loop {
                preferred: next.moved,
                other: another,
                body,
                excluded,
                reluctant,
                next: next.moved,
            };
            return Ok(());
        }
        self.places[place as usize] = Place::Loop {
            preferred: another,
            other: next.moved,
            body,
            excluded,
            reluctant,
            next: next.moved,
        };
        Ok(())
    }
}
