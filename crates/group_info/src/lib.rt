// Grouping information of the kinds of a query (group_info.rs), and the range that a query gets (ComponentStorage::group_range).
#![tactic(auto)]

ghost use Rattle.std.specs.Prelude.{◌≡◌, ◌+◌, ◌<◌};
ghost use Rattle.words.specs.Offsets.{GROUP_PLACES};
ghost use Rattle.group_info.specs.Info.{KindInfo, JoinedBy, info_of, BothAdded, ViewAdded, GroupsInside, InsideFound, Tables, IncludeSays, ExcludeSays, ExcludedSays, IncludedSays};
ghost use Rattle.group_info.specs.Describes.{RangeSays};

use masks::group_mask::QueryMask;
use masks::storage_mask::StorageMask;

// Kinds of one family: its first group, one past the largest of their own groups, and their places among the family's kinds.
#[derive(Clone, Copy, Debug, PartialEq, Eq)]
pub struct GroupInfo {
    pub group_start: usize,
    pub group_end: usize,
    pub storage_mask: StorageMask,
}

// One kind of a query: its group info, if it is in a group, and the length of its sparse set.
#[derive(Clone, Copy, Debug, PartialEq, Eq)]
pub struct ViewGroupInfo {
    pub info: Option<GroupInfo>,
    pub len: usize,
}

#[derive(Clone, Copy, Debug, PartialEq, Eq)]
pub enum QueryGroupInfo {
    Empty,
    One(ViewGroupInfo),
    Many(GroupInfo),
}

// Rows of a group's columns, from `start` up to `end`.
#[derive(Clone, Copy, Debug, PartialEq, Eq)]
pub struct GroupRange {
    pub start: usize,
    pub end: usize,
}

impl GroupInfo {
    // Of one kind: its family's first group, its own group, its place among the family's kinds.
    pub fn of_kind(start: usize, own: usize, place: usize) -> GroupInfo
        requires { (own < GROUP_PLACES) × (place < 16) }
        ensures { KindInfo start own place result }
    {
        let storage_mask = StorageMask::single(place);
        GroupInfo {
            group_start: start,
            group_end: own + 1,
            storage_mask,
        }
    }

    // Of both, where they are of one family.
    pub fn add_group(self, other: GroupInfo) -> Option<GroupInfo>
        ensures { JoinedBy self other result }
    {
        if self.group_start != other.group_start {
            return None;
        }
        Some(GroupInfo {
            group_start: self.group_start,
            group_end: self.group_end.max(other.group_end),
            storage_mask: self.storage_mask.union(other.storage_mask),
        })
    }
}

// Both infos, if there are two and they are of one family.
fn both(a: Option<GroupInfo>, b: Option<GroupInfo>) -> Option<QueryGroupInfo>
    ensures { BothAdded a b result }
{
    let joined = a?.add_group(b?)?;
    Some(QueryGroupInfo::Many(joined))
}

impl QueryGroupInfo {
    // The query with one kind more; none where its kinds are not of one family.
    pub fn add_view(self, view: ViewGroupInfo) -> Option<QueryGroupInfo>
        ensures { ViewAdded self view result }
    {
        match self {
            QueryGroupInfo::Empty => Some(QueryGroupInfo::One(view)),
            QueryGroupInfo::One(old) => both(old.info, view.info),
            QueryGroupInfo::Many(old) => both(Some(old), view.info),
        }
    }

    pub fn group_info(self) -> Option<GroupInfo>
        ensures { result ≡ info_of self }
    {
        match self {
            QueryGroupInfo::Empty => None,
            QueryGroupInfo::One(view) => view.info,
            QueryGroupInfo::Many(info) => Some(info),
        }
    }
}

// The kinds are a whole group: its range.
#[tactic(auto, using(crate::proofs::Masking::differ))]
fn include_group_range(include: GroupInfo, arities: &[u32], counts: &[u32]) -> Option<GroupRange>
    requires tables { Tables arities.now counts.now }
    requires include_inside { GroupsInside arities.now include }
    ensures { IncludeSays arities.now counts.now include result }
{
    let g = include.group_end - 1;
    let group = QueryMask::include(arities[g] as usize);
    if include.storage_mask != group.include {
        return None;
    }
    let end = counts[g] as usize;
    Some(GroupRange { start: 0, end })
}

// They are a whole group, and the excluded kinds those that the next larger group adds: what the larger leaves of its range.
#[tactic(auto, using(crate::proofs::Masking::differ))]
fn exclude_group_range(
    include: GroupInfo,
    exclude: GroupInfo,
    arities: &[u32],
    counts: &[u32],
) -> Option<GroupRange>
    requires tables { Tables arities.now counts.now }
    requires include_inside { GroupsInside arities.now include }
    requires exclude_inside { GroupsInside arities.now exclude }
    ensures { ExcludeSays arities.now counts.now include exclude result }
{
    let start = include.group_start;
    if start != exclude.group_start {
        return None;
    }
    let child = include.group_end.max(exclude.group_end) - 1;
    if child <= start {
        return None;
    }
    let parent = child - 1;
    let group = QueryMask::exclude(arities[parent] as usize, arities[child] as usize);
    if include.storage_mask != group.include {
        return None;
    }
    if exclude.storage_mask != group.exclude {
        return None;
    }
    let start = counts[child] as usize;
    let end = counts[parent] as usize;
    Some(GroupRange { start, end })
}

fn excluded_range(
    include: Option<GroupInfo>,
    exclude: Option<GroupInfo>,
    arities: &[u32],
    counts: &[u32],
) -> Option<GroupRange>
    requires tables { Tables arities.now counts.now }
    requires include_inside { InsideFound arities.now include }
    requires exclude_inside { InsideFound arities.now exclude }
    ensures { ExcludedSays arities.now counts.now include exclude result }
{
    exclude_group_range(include?, exclude?, arities, counts)
}

fn included_range(include: QueryGroupInfo, arities: &[u32], counts: &[u32]) -> Option<GroupRange>
    requires tables { Tables arities.now counts.now }
    requires include_inside { InsideFound arities.now (info_of include) }
    ensures { IncludedSays arities.now counts.now include result }
{
    match include {
        QueryGroupInfo::Empty => None,
        QueryGroupInfo::One(view) => Some(GroupRange {
            start: 0,
            end: view.len,
        }),
        QueryGroupInfo::Many(info) => include_group_range(info, arities, counts),
    }
}

// The range of a query: as the model's RANGE says of the kinds that the two infos describe.
pub fn group_range(
    include: QueryGroupInfo,
    exclude: QueryGroupInfo,
    arities: &[u32],
    counts: &[u32],
) -> Option<GroupRange>
    requires tables { Tables arities.now counts.now }
    requires include_inside { InsideFound arities.now (info_of include) }
    requires exclude_inside { InsideFound arities.now (info_of exclude) }
    ensures { RangeSays arities.now counts.now include exclude result }
{
    match exclude {
        QueryGroupInfo::Empty => included_range(include, arities, counts),
        QueryGroupInfo::One(view) => excluded_range(
            include.group_info(),
            view.info,
            arities,
            counts,
        ),
        QueryGroupInfo::Many(info) => excluded_range(
            include.group_info(),
            Some(info),
            arities,
            counts,
        ),
    }
}
