// RANGE over the words: the group infos of the staged and of the excluded kinds, and the range that they get.
ghost use Rattle.std.specs.Prelude.{◌≡◌};
ghost use Rattle.model.specs.Model.{range_for, range_under};
ghost use Rattle.model.specs.Sound.{In};
ghost use Rattle.model.specs.Store.{staged_kinds};
ghost use Rattle.memory.specs.Meaning.{layout_arrays, meaning};
ghost use Rattle.memory.specs.Arranged.{Arranged, Sound};
ghost use Rattle.group_info.specs.Describes.{InfoOfKind, ViewOf, range_of};
ghost use Rattle.command_range.specs.Query.{QueryOf, KindAdded};

use control::lists::{ExcludedKinds, KindsInWords, StagedKinds};
use group_info::{GroupInfo, GroupRange, QueryGroupInfo, ViewGroupInfo};
use words::Found;

// The group info of a kind, by the head of its column.
fn info_of(words: &[u32], kind: usize) -> Option<GroupInfo>
    requires arranged { Arranged words.now }
    requires kind_known { In (meaning words.now).kinds kind }
    ensures { InfoOfKind (layout_arrays words.now) kind result }
{
    let z = words::shape_of(words);
    let found = kinds::own_group(words, z, kind);
    // A rule of the project: a range step goes on from the place that was found, and stops where there is none.
    let Found::At(place) = found else {
        return None;
    };
    let metadata = group::group_metadata::metadata(words, place);
    let storage_place = kinds::place_in_family(words, z, kind);
    Some(GroupInfo::of_kind(metadata.first, place, storage_place))
}

pub fn view_of(words: &[u32], kind: usize) -> ViewGroupInfo
    requires arranged { Arranged words.now }
    requires kind_known { In (meaning words.now).kinds kind }
    ensures { ViewOf (layout_arrays words.now) (meaning words.now).storage kind result }
{
    let info = info_of(words, kind);
    let len = kinds::set_len(words, kind);
    ViewGroupInfo { info, len }
}

// The query with one kind more. It comes into the loop of each list: as a call of its own it hands each query over in
// memory, and a RANGE of sixteen kinds took 1.6 times as long.
#[inline(always)]
fn add_kind(words: &[u32], found: Option<QueryGroupInfo>, kind: usize) -> Option<QueryGroupInfo>
    requires arranged { Arranged words.now }
    requires kind_known { In (meaning words.now).kinds kind }
    ensures { KindAdded words.now found kind result }
{
    found?.add_view(view_of(words, kind))
}

// The query of a list's kinds.
pub fn listed_query<L: KindsInWords>(words: &[u32]) -> Option<QueryGroupInfo>
    requires { Sound words.now }
    ensures { QueryOf words.now (L.kinds (meaning words.now)) result }
{
    let mut found = Some(QueryGroupInfo::Empty);
    for at in L::KINDS_AT..L::KINDS_AT + L::len(words) {
        found = add_kind(words, found, words::word(words, at));
    }
    found
}

// 01, RANGE: the range of the staged kinds without the excluded ones.
pub fn group_range(words: &[u32]) -> Option<GroupRange>
    requires { Sound words.now }
    ensures { range_of result ≡ range_for (staged_kinds (meaning words.now)) (meaning words.now).control.excluded (meaning words.now).storage }
{
    group_info::group_range(
        listed_query::<StagedKinds>(words)?,
        listed_query::<ExcludedKinds>(words)?,
        &words[words::LAYOUT_ARITIES..words::LAYOUT_KIND_ENDS],
        &words[words::GROUP_COUNTS..words::ENTITIES],
    )
}

// 02, No. 8: by the store's rule. The newer finds nothing for two or more excluded kinds.
pub fn range_under(words: &[u32]) -> Option<GroupRange>
    requires { Sound words.now }
    ensures { range_of result ≡ range_under (meaning words.now).settings.newer (staged_kinds (meaning words.now)) (meaning words.now).control.excluded (meaning words.now).storage }
{
    if control::rule::is_newer(words) && 1 < ExcludedKinds::len(words) {
        return None;
    }
    group_range(words)
}
