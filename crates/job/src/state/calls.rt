// The calls on composites: each tests the memory, then its own checks in their order, then does its work.
ghost use Rattle.std.specs.Prelude.{◌≡◌, ◌+◌, ◌^◌, ◌<◌, ◌≤◌, ◌++◌, map, length, take, Some, Decides, MatchOption, MatchResult};
ghost use Rattle.std.specs.Option.{option_map};
ghost use Rattle.keys.specs.Numbers.{AscendingNumbers};
ghost use Rattle.memory.specs.Fit.{IdsKnown};
ghost use Rattle.memory.specs.Lists.{Lists, lists};
ghost use Rattle.job.specs.Composites.{fresh, token as token_of, begun, given, listed, spanned, Opens, ComponentRoom, added, closed, spend_checks, Below, Keeps, KeepsBelow, Begins, AddsComponent, Closes, Cancels};
ghost use Rattle.job.specs.Outcome.{FirstOf, NoneOf, JobFits, Room, state};

use crate::state::{Job, Kept, OpenComposite, VarComponent};
use keys::numbers_ascend;
use memory::{Component, Counts, Mark, Memory, Pair, Refusal, Span, fits};

// The most records of a list.
const MOST: u32 = 16777216;

impl Job {
    // A new job: nothing is filled, and no composite is open.
    pub fn new(number: u32) -> Job
        ensures fresh { result ≡ fresh number }
        ensures fits { (l : Lists) → JobFits result l }
    {
        Job {
            number,
            counts: Counts::default(),
            mark: None,
        }
    }

    // The job's number.
    pub fn number(&self) -> u32
        ensures { result ≡ self.now.number }
    {
        self.number
    }

    // How many records of each list are filled.
    pub fn counts(&self) -> Counts
        ensures { result ≡ self.now.counts }
    {
        self.counts
    }

    // Begins a composite. The token must be spent by `close` or `cancel`.
    pub fn begin(&mut self, mem: &mut Memory<'_>) -> Result<OpenComposite, Refusal>
        ensures outcome { Begins self.old (lists mem.old) result (state self.new (lists mem.new)) }
        ensures keeps { Keeps self.old (lists mem.old) self.new (lists mem.new) }
    {
        if !self.fits_in(mem) {
            return Err(Refusal::Memory);
        }
        if !has_room(1, self.counts.composites, mem.composites.len()) {
            return Err(Refusal::NoRoom);
        }
        if self.mark.is_some() {
            return Err(Refusal::IsOpen);
        }
        Ok(self.put_begun(mem))
    }

    // Adds a component to the open composite.
    pub fn component(
        &mut self,
        mem: &mut Memory<'_>,
        token: &OpenComposite,
        component: VarComponent<'_>,
    ) -> Result<(), Refusal>
        ensures outcome { AddsComponent self.old (lists mem.old) token.now (given component.entry) result (state self.new (lists mem.new)) }
        ensures keeps { Keeps self.old (lists mem.old) self.new (lists mem.new) }
    {
        if !self.fits_in(mem) {
            return Err(Refusal::Memory);
        }
        let new = pairs_of(component.axes);
        if !numbers_ascend(new) {
            return Err(Refusal::AxisOrder);
        }
        if !self.has_component_room(mem, new.len()) {
            return Err(Refusal::NoRoom);
        }
        if component.gid > 0xFFFFFF {
            return Err(Refusal::GlyphId);
        }
        if !component.ids_known(self.counts.sets as usize) {
            return Err(Refusal::UnknownId);
        }
        self.opened(token).ok_or(Refusal::NotOpen)?;
        self.put_component(mem, component);
        Ok(())
    }

    // Closes the open composite: it is now the last of the closed ones.
    pub fn close(&mut self, mem: &mut Memory<'_>, token: OpenComposite) -> Result<(), Kept>
        ensures outcome { Closes self.old (lists mem.old) token result (state self.new (lists mem.new)) }
        ensures keeps { Keeps self.old (lists mem.old) self.new (lists mem.new) }
    {
        let begun = self.spend(mem, token)?;
        self.put_closed(mem, begun);
        Ok(())
    }

    // Cancels the open composite: its components and pairs are free again; regions and sets stay.
    pub fn cancel(&mut self, mem: &Memory<'_>, token: OpenComposite) -> Result<(), Kept>
        ensures outcome { Cancels self.old (lists mem.now) token result (state self.new (lists mem.now)) }
        ensures keeps { KeepsBelow self.old (lists mem.now) self.new (lists mem.now) }
    {
        let begun = self.spend(mem, token)?;
        self.counts.composites -= 1;
        self.counts.components = begun.components;
        self.counts.pairs = begun.pairs;
        self.mark = None;
        Ok(())
    }

    // Whether the filled records fit together and lie within the memory.
    fn fits_in(&self, mem: &Memory<'_>) -> bool
        ensures { Decides result (JobFits self.now (lists mem.now)) }
    {
        fits(&self.counts, self.mark, mem)
    }

    // Where the composite was begun that is open and that the token is of.
    fn opened(&self, token: &OpenComposite) -> Option<Mark>
        ensures { MatchOption result (Opens self.now token.now → ⊥) (λ m. Opens self.now token.now × (self.now.mark ≡ Some m)) }
    {
        if token.job != self.number || token.composite as u64 + 1 != self.counts.composites as u64 {
            return None;
        }
        self.mark
    }

    // Spends the token of the open composite, and answers where that was begun; or hands it back, and says why.
    fn spend(&self, mem: &Memory<'_>, token: OpenComposite) -> Result<Mark, Kept>
        ensures { MatchResult result (λ m. NoneOf (spend_checks self.now (lists mem.now) token) × (self.now.mark ≡ Some m)) (λ k. FirstOf (spend_checks self.now (lists mem.now) token) k.refusal × (k.token ≡ token)) }
    {
        if !self.fits_in(mem) {
            return Err(Kept {
                token,
                refusal: Refusal::Memory,
            });
        }
        let Some(begun) = self.opened(&token) else {
            return Err(Kept {
                token,
                refusal: Refusal::NotOpen,
            });
        };
        token.let_go();
        Ok(begun)
    }

    fn has_component_room(&self, mem: &Memory<'_>, pairs: usize) -> bool
        ensures { Decides result (ComponentRoom pairs self.now.counts (lists mem.now)) }
    {
        has_room(1, self.counts.components, mem.components.len())
            && has_room(pairs, self.counts.pairs, mem.pairs.len())
    }

    // Fills the next composite record and marks it as open.
    fn put_begun(&mut self, mem: &mut Memory<'_>) -> OpenComposite
        requires fits { JobFits self.old (lists mem.old) }
        requires room { Room 1 self.old.counts.composites (length mem.old.composites.now) }
        ensures answer { result ≡ token_of self.old }
        ensures leaves { state self.new (lists mem.new) ≡ begun (state self.old (lists mem.old)) }
        ensures below { Below (state self.new (lists mem.new)) }
        ensures keeps { Keeps self.old (lists mem.old) self.new (lists mem.new) }
    {
        let at = self.counts.composites;
        mem.composites[at as usize] = Span {
            place: self.counts.components,
            count: 0,
        };
        self.counts.composites = at + 1;
        self.mark = Some(Mark {
            components: self.counts.components,
            pairs: self.counts.pairs,
        });
        OpenComposite {
            job: self.number,
            composite: at,
        }
    }

    // Appends the pairs and the component's record.
    fn put_component(&mut self, mem: &mut Memory<'_>, component: VarComponent<'_>)
        requires fits { JobFits self.old (lists mem.old) }
        requires order { AscendingNumbers (map (λ p. p.axis) (listed (given component).axes)) }
        requires room { ComponentRoom (length (listed (given component).axes)) self.old.counts (lists mem.old) }
        requires gid { component.gid ≤ 0xFFFFFF }
        requires ids { IdsKnown self.old.counts.sets (given component) }
        ensures leaves { state self.new (lists mem.new) ≡ added (given component.entry) (state self.old (lists mem.old)) }
        ensures keeps { Keeps self.old (lists mem.old) self.new (lists mem.new) }
    {
        let new = pairs_of(component.axes);
        let at = self.counts.pairs;
        append(mem.pairs, at as usize, new);
        let axes = spanning(at, component.axes);
        mem.components[self.counts.components as usize] = Component {
            reset_unspecified_axes: component.reset_unspecified_axes,
            gid: component.gid,
            condition: component.condition,
            axes,
            axis_values_var: component.axis_values_var,
            transform_var: component.transform_var,
            transform: component.transform,
        };
        self.counts.pairs = at + new.len() as u32;
        self.counts.components += 1;
    }

    // Enters place and count of the composite, which is open no more.
    fn put_closed(&mut self, mem: &mut Memory<'_>, begun: Mark)
        requires fits { JobFits self.old (lists mem.old) }
        requires mark { self.old.mark ≡ Some begun }
        ensures leaves { state self.new (lists mem.new) ≡ closed (state self.old (lists mem.old)) }
        ensures below { Below (state self.new (lists mem.new)) }
        ensures keeps { Keeps self.old (lists mem.old) self.new (lists mem.new) }
    {
        let count = self.counts.components - begun.components;
        mem.composites[self.counts.composites as usize - 1] = Span {
            place: begun.components,
            count,
        };
        self.mark = None;
    }
}

impl OpenComposite {
    fn let_go(self) {
        let OpenComposite {
            job: _,
            composite: _,
        } = self;
    }
}

// The pairs, none where there are none.
fn pairs_of<'a>(axes: Option<&'a [Pair]>) -> &'a [Pair]
    ensures { result.now ≡ listed (option_map (λ x. x.now) axes.entry) }
{
    axes.unwrap_or(&[])
}

// Whether n records more find room.
fn has_room(n: usize, filled: u32, size: usize) -> bool
    ensures { Decides result (Room n filled size) }
{
    let need = filled as u128 + n as u128;
    need <= size as u128 && need <= MOST as u128
}

// Where pairs will stand.
fn spanning(at: u32, axes: Option<&[Pair]>) -> Option<Span>
    requires { length (listed (option_map (λ x. x.now) axes)) < 2 ^ 32 }
    ensures { result ≡ spanned at (option_map (λ x. x.now) axes.entry) }
{
    axes.map(|pairs| Span {
        place: at,
        count: pairs.len() as u32,
    })
}

// Writes records behind the filled ones. The list is lent, and not a `Vec`: nothing is allocated.
fn append<T: Copy>(list: &mut [T], at: usize, new: &[T])
    requires { at + length new.now ≤ length list.old }
    ensures { take (at + length new.now) list.new ≡ take at list.old ++ new.now }
{
    let end = at + new.len();
    list[at..end].copy_from_slice(new);
}
