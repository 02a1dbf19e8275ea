// The layout of groups by value, and a group added to it.
ghost use Rattle.std.specs.Prelude.{◌≡◌, cond, [], ◌+◌, ◌-◌, ◌≤◌, ◌<◌, leb, length, take};
ghost use Rattle.model.specs.Numbers.{LIST_CAPACITY, MAX_GROUP_COUNT, MAX_KINDS};
ghost use Rattle.model.specs.Model.{mem, within, meets, same_set, is_group, without, common};
ghost use Rattle.layout.specs.Layout.{KindSet, AritiesRising, groups_from, start_of};
ghost use Rattle.layout.specs.ByValue.{Formed, arrays_of, layout_meaning};
ghost use Rattle.layout.specs.Fit.{chain_place, part_of, join_fit, fit_from, FitAsk};
ghost use Rattle.layout.specs.Grow.{Appended, Spread, Raised, RaiseAsk, merged_kinds, FillAsk, FillDone, opened_of, FreshAsk, FreshDone, OntoAsk, OntoDone};
ghost use Rattle.layout.specs.Add.{Fitting, AddsGroup};

use kind_list::KindList;
use model::LIST_CAPACITY;
use model::refusals::Refusal;

/// The families one after another: their kinds in order, their groups' arities, and where each family's kinds and
/// groups end. The group of arity a is the first a kinds of its family. A library with no heap has it by value, with
/// arrays of full length.
///
/// That it is well formed (`Formed`) is a clause where it is needed, and not a fact of the struct: `opened` makes one
/// whose last family is still empty, for `filled`.
#[derive(Clone, PartialEq, Eq, Debug, Drop)]
pub struct Layout {
    pub kinds: [u8; model::MAX_KINDS],
    pub arities: [u8; words::GROUP_PLACES],
    pub kind_ends: [u8; words::GROUP_PLACES],
    pub ends: [u8; words::GROUP_PLACES],
    pub families: usize,
    /// How many kinds and groups there are.
    pub width: usize,
    pub groups: usize,
}

/// How staged kinds stand to one family.
#[derive(Clone, Copy, PartialEq, Eq, Debug)]
pub enum Part {
    /// No kind in common.
    Apart,
    /// They are one of the family's groups.
    Same,
    /// They are a chain with its groups: behind so many of them, which they hold.
    At(usize),
    /// Anything else.
    Cross,
}

/// How they stand to all families.
#[derive(Clone, Copy, PartialEq, Eq, Debug)]
pub enum Fit {
    Fresh,
    Present,
    /// The family, and the place among its groups.
    Onto(usize, usize),
    Clash,
}

/// Was the group added, or why was it refused? With the layout that there is then: the one that came, unless the
/// group was added.
#[derive(Clone, PartialEq, Eq, Debug, Drop)]
pub struct Answer {
    pub outcome: Result<bool, Refusal>,
    pub layout: Layout,
}

/// Is the kind among the kinds?
pub fn among(kinds: &[u8], kind: u8) -> bool
    ensures { result ≡ mem kind kinds.now }
{
    // `for` here and in `some_among`: over a family's few kinds `any` took up to 1.5 times as long, and `contains`
    // looks at three bytes or eight before it stops
    for &k in kinds {
        if k == kind {
            return true;
        }
    }
    false
}

/// Are all of ks among js?
pub fn all_among(ks: &[u8], js: &[u8]) -> bool
    ensures { result ≡ within ks.now js.now }
{
    ks.iter().all(|&k| among(js, k))
}

/// Is one of ks among js?
pub fn some_among(ks: &[u8], js: &[u8]) -> bool
    ensures { result ≡ meets ks.now js.now }
{
    for &k in ks {
        if among(js, k) {
            return true;
        }
    }
    false
}

// A family: its kinds in order, each once, and the arities of its groups, which rise to the number of its kinds.
#[derive(Clone, Copy)]
struct Family<'a> {
    kinds: &'a [u8],
    arities: &'a [u8],
    ghost once: { KindSet kinds.now },
    ghost rising: { ∥ AritiesRising 0 (length kinds.now) arities.now ∥₁ },
}

impl<'a> Family<'a> {
    // Are the staged kinds its first a kinds?
    fn starts_with(&self, a: usize, staged: &[u8]) -> bool
        requires inside { a ≤ length self.now.kinds.now }
        requires staged_once { KindSet staged.now }
        ensures { result ≡ same_set staged.now (take a self.now.kinds.now) }
    {
        a == staged.len() && all_among(&self.kinds[..a], staged)
    }

    // Are they one of its groups?
    fn has_group(&self, staged: &[u8]) -> bool
        requires { KindSet staged.now }
        ensures { result ≡ is_group staged.now [] (groups_from [] 0 self.now.kinds.now 0 self.now.arities.now) }
    {
        for &arity in self.arities {
            if self.starts_with(arity as usize, staged) {
                return true;
            }
        }
        false
    }

    // Their place among its groups: behind those that they hold, if the next one holds them, as each later one then
    // does.
    fn place_of(&self, staged: &[u8]) -> Part
        requires { KindSet staged.now }
        ensures { result ≡ chain_place staged.now (groups_from [] 0 self.now.kinds.now 0 self.now.arities.now) }
    {
        for (j, &arity) in self.arities.iter().enumerate() {
            let group = &self.kinds[..arity as usize];
            if !all_among(group, staged) {
                if all_among(staged, group) {
                    return Part::At(j);
                }
                return Part::Cross;
            }
        }
        Part::At(self.arities.len())
    }

    // How they stand to it.
    fn part_of(&self, staged: &[u8]) -> Part
        requires { KindSet staged.now }
        ensures { result ≡ part_of staged.now (groups_from [] 0 self.now.kinds.now 0 self.now.arities.now) }
    {
        if self.has_group(staged) {
            return Part::Same;
        }
        if !some_among(staged, self.kinds) {
            return Part::Apart;
        }
        self.place_of(staged)
    }
}

// How they stand to the families so far, with family f.
fn joined(so_far: Fit, f: usize, part: Part) -> Fit
    ensures { result ≡ join_fit so_far f part }
{
    match part {
        Part::Apart => so_far,
        Part::Same => Fit::Present,
        Part::At(at) => match so_far {
            Fit::Fresh => Fit::Onto(f, at),
            Fit::Present => Fit::Present,
            Fit::Onto(_, _) | Fit::Clash => Fit::Clash,
        },
        Part::Cross => match so_far {
            Fit::Present => Fit::Present,
            Fit::Fresh | Fit::Onto(_, _) | Fit::Clash => Fit::Clash,
        },
    }
}

// How the staged kinds stand to the layout's families.
fn fit_of(l: &Layout, staged: &[u8]) -> Fit
    requires { FitAsk (arrays_of l.now) staged.now }
    ensures { result ≡ fit_from staged.now 0 Fit.Fresh (layout_meaning l.now) }
{
    let mut fit = Fit::Fresh;
    let mut kind_start: usize = 0;
    let mut group_start: usize = 0;
    for f in 0..l.families {
        let kind_end = l.kind_ends[f] as usize;
        let group_end = l.ends[f] as usize;
        let family = Family {
            kinds: &l.kinds[kind_start..kind_end],
            arities: &l.arities[group_start..group_end],
        };
        fit = joined(fit, f, family.part_of(staged));
        kind_start = kind_end;
        group_start = group_end;
    }
    fit
}

// Writes src into dst from at on; what lies before stays.
fn append(dst: &mut [u8], at: usize, src: &[u8]) -> usize
    requires { at + length src.now ≤ length dst.old }
    ensures { Appended dst.old at src.now dst.new result }
{
    let end = at + src.len();
    dst[at..end].copy_from_slice(src);
    end
}

// Writes src into dst, with more in the place of its part from..to.
fn spread(dst: &mut [u8], src: &[u8], from: usize, to: usize, more: &[u8])
    requires { (from ≤ to) × (to ≤ length src.now) × (from + length more.now + (length src.now - to) ≤ length dst.old) }
    ensures { Spread dst.old src.now from to more.now dst.new }
{
    let first = append(&mut *dst, 0, &src[..from]);
    let second = append(&mut *dst, first, more);
    append(&mut *dst, second, &src[to..]);
}

// Adds to each of the numbers.
fn raise(ends: &mut [u8], by: u8)
    requires { RaiseAsk ends.old 0 (length ends.old) by }
    ensures { Raised ends.old 0 (length ends.old) by ends.new }
{
    for end in ends.iter_mut() {
        *end += by;
    }
}

// The kinds of a list that another one has, if they are wanted, or lacks, in their order.
fn picked(ks: &[u8], others: &[u8], wanted: bool) -> KindList<LIST_CAPACITY>
    requires { length ks.now ≤ LIST_CAPACITY }
    ensures { result ≡ cond wanted (common ks.now others.now) (without ks.now others.now) }
{
    let mut picked = KindList::new();
    for &kind in ks {
        if among(others, kind) == wanted {
            picked.push(kind);
        }
    }
    picked
}

// Where number f starts: where the one before ends. `starts::start_of` says it of words from an offset on; one
// function for both would be over a type parameter that becomes a `usize`, and longer than the two.
fn start_of(ends: &[u8], f: usize) -> usize
    requires { f ≤ length ends.now }
    ensures { result ≡ start_of ends.now f }
{
    if f == 0 {
        return 0;
    }
    let before = f - 1;
    ends[before] as usize
}

// The layout with an empty family at its end, for `filled` to fill.
fn opened(mut l: Layout) -> Layout
    requires { (l.families < MAX_GROUP_COUNT) × (l.width ≤ MAX_KINDS) × (l.groups ≤ MAX_GROUP_COUNT) }
    ensures { result ≡ opened_of l }
{
    l.kind_ends[l.families] = l.width as u8;
    l.ends[l.families] = l.groups as u8;
    l.families += 1;
    l
}

// A family's kinds and the staged ones: its kinds that are staged, the staged ones that it lacks, its others.
fn merged(ks: &[u8], staged: &[u8]) -> KindList<LIST_CAPACITY>
    requires { (length ks.now ≤ LIST_CAPACITY) × (length staged.now ≤ LIST_CAPACITY) × (length (merged_kinds ks.now staged.now) ≤ LIST_CAPACITY) }
    ensures { result ≡ merged_kinds ks.now staged.now }
{
    let mut merged = picked(ks, staged, true);
    let new = picked(staged, ks, false);
    let others = picked(ks, staged, false);
    merged.extend_from_slice(new.as_slice());
    merged.extend_from_slice(others.as_slice());
    merged
}

// Family f with other kinds, no fewer than its own, and a group more, at a place among its groups.
fn filled(l: Layout, f: usize, kinds: &[u8], at: usize, arity: u8) -> Layout
    requires { FillAsk l f kinds.now at arity }
    ensures { FillDone l f kinds.now at arity result }
{
    let kind_start = start_of(&l.kind_ends, f);
    let kind_end = l.kind_ends[f] as usize;
    let more = kinds.len() - (kind_end - kind_start);
    let mut all = [0u8; model::MAX_KINDS];
    spread(&mut all, &l.kinds[..l.width], kind_start, kind_end, kinds);
    let place = start_of(&l.ends, f) + at;
    let mut arities = [0u8; words::GROUP_PLACES];
    spread(&mut arities, &l.arities[..l.groups], place, place, &[arity]);
    let mut kind_ends = l.kind_ends;
    raise(&mut kind_ends[f..l.families], more as u8);
    let mut ends = l.ends;
    raise(&mut ends[f..l.families], 1);
    Layout {
        kinds: all,
        arities,
        kind_ends,
        ends,
        families: l.families,
        width: l.width + more,
        groups: l.groups + 1,
    }
}

// The staged kinds as a family of their own.
fn fresh(l: Layout, staged: &[u8]) -> Layout
    requires { FreshAsk l staged.now }
    ensures { FreshDone l staged.now result }
{
    let f = l.families;
    filled(opened(l), f, staged, 0, staged.len() as u8)
}

// The staged kinds as a group of family f, at their place.
fn grown(l: Layout, f: usize, at: usize, staged: &[u8]) -> Layout
    requires { OntoAsk l f at staged.now }
    ensures { OntoDone l f staged.now result }
{
    let kind_start = start_of(&l.kind_ends, f);
    let kind_end = l.kind_ends[f] as usize;
    let all = merged(&l.kinds[kind_start..kind_end], staged);
    filled(l, f, all.as_slice(), at, staged.len() as u8)
}

// Are there as many groups as there may be?
fn has_most_groups(groups: usize) -> bool
    ensures { result ≡ leb MAX_GROUP_COUNT groups }
{
    model::MAX_GROUP_COUNT <= groups
}

// Adds them as a family of their own, if a group more may be.
fn add_fresh(l: Layout, staged: &[u8]) -> Answer
    requires { Fitting l staged.now Fit.Fresh }
    ensures { AddsGroup l staged.now result }
{
    if has_most_groups(l.groups) {
        return Answer {
            outcome: Err(Refusal::Many),
            layout: l,
        };
    }
    Answer {
        outcome: Ok(true),
        layout: fresh(l, staged),
    }
}

// Adds them to family f at their place, if a group more may be.
fn add_onto(l: Layout, f: usize, at: usize, staged: &[u8]) -> Answer
    requires { Fitting l staged.now (Fit.Onto f at) }
    ensures { AddsGroup l staged.now result }
{
    if has_most_groups(l.groups) {
        return Answer {
            outcome: Err(Refusal::Many),
            layout: l,
        };
    }
    Answer {
        outcome: Ok(true),
        layout: grown(l, f, at, staged),
    }
}

/// Adds a group of the staged kinds, which are no more than a group may have. Where they are too few to be a group,
/// or are one of the layout's, nothing is added.
pub fn add_group(l: Layout, staged: &[u8]) -> Answer
    requires { Formed l × KindSet staged.now × (length staged.now ≤ LIST_CAPACITY) }
    ensures { AddsGroup l staged.now result }
{
    if staged.len() < 2 {
        return Answer {
            outcome: Ok(false),
            layout: l,
        };
    }
    match fit_of(&l, staged) {
        Fit::Present => Answer {
            outcome: Ok(false),
            layout: l,
        },
        Fit::Clash => Answer {
            outcome: Err(Refusal::Clash),
            layout: l,
        },
        Fit::Fresh => add_fresh(l, staged),
        Fit::Onto(f, at) => add_onto(l, f, at, staged),
    }
}
