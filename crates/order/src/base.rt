// The table with no query known: reflexivity, a role's viewers and trusters at most that role, and inclusion between the
// sets of viewers, trusters and everyone. It uses only the fixed part, and reads viewers and trusters once, into words from
// which every row is made.
ghost use Rattle.std.specs.Prelude.{◌≡◌, [], ◌-◌, ◌^◌, ◌<◌, ◌≤◌, cond};
ghost use Rattle.model.specs.Limits.{principal_limit, role_limit};
ghost use Rattle.model.specs.Sets.{within, with};
ghost use Rattle.model.specs.Policy.{Accepted, roles};
ghost use Rattle.order.specs.Table.{union, with_role, Knows};
ghost use Rattle.order.specs.Base.{words_at, WordsOf, fixed_row, RoleRows, RowsOf, Filled};

use super::table;
use super::table::{Row, Table};
use policy::rows;
use shared::sets;

// The viewers and the trusters of the roles that there are, `count`, a word for each.
// Kept: two arrays. With one array of pairs, tried, a pass over 64 roles takes 1.26 times as long; with words of 64 bits, a
// verdict under 64 roles that all differ takes 1.13 times as long.
#[derive(Drop)]
struct Words {
    viewers: [u32; table::ROLES],
    trusters: [u32; table::ROLES],
    count: usize,
}

// The words of a role.
#[derive(Clone, Copy, PartialEq, Eq)]
struct Watchers {
    viewers: u32,
    trusters: u32,
}

// The row of a role's viewers, and that of its trusters.
#[derive(Clone, Copy)]
struct WatcherRows {
    viewers: Row,
    trusters: Row,
}

impl Words {
    // Reads those of a policy, in place: returned, they would be copied.
    #[tactic(auto, using(crate::proofs::BaseLaws::facts, crate::proofs::BaseLaws::loads))]
    fn load(&mut self, policy: &[u8])
        requires { (Accepted policy.now) × (self.old.count ≡ roles policy.now) }
        ensures { WordsOf policy.now self.new }
    {
        for j in 0..self.count {
            self.viewers[j] = rows::viewers_of(policy, j);
            self.trusters[j] = rows::trusters_of(policy, j);
        }
    }

    // Those of role j.
    fn at(&self, j: usize) -> Watchers
        requires { j < role_limit }
        ensures { result ≡ words_at self.now j }
    {
        Watchers {
            viewers: self.viewers[j],
            trusters: self.trusters[j],
        }
    }
}

// `found` with role j, where `low` lies in its viewers (trusters): these are then at most an atom whose set is `low`.
fn with_holder(found: u64, low: u32, word: u32, j: usize) -> u64
    requires { j < role_limit }
    ensures { result ≡ cond (within low word) (with found j) found }
{
    if sets::subset(u64::from(low), u64::from(word)) {
        return sets::with(found, j as u64);
    }
    found
}

// The row of viewers, trusters or everyone with the set `low`: the roles whose viewers, and those whose trusters, are at most
// such an atom. No role is. One pass for both: with a pass for each, that verdict takes 1.3 times as long.
#[tactic(auto, using(crate::proofs::BaseLaws::holder_laws))]
fn fixed_row(words: &Words, low: u32) -> Row
    requires { words.now.count ≤ role_limit }
    ensures { result ≡ fixed_row words.now low }
{
    let mut seen = 0;
    let mut trusted = 0;
    for j in 0..words.count {
        seen = with_holder(seen, low, words.viewers[j], j);
        trusted = with_holder(trusted, low, words.trusters[j], j);
    }
    Row {
        roles: 0,
        viewers: seen,
        trusters: trusted,
    }
}

// All of n principals.
#[tactic(auto, using(crate::proofs::BaseLaws::principal_sets))]
fn all_of(n: u8) -> u32
    requires { n ≤ principal_limit }
    ensures { result ≡ 2 ^ n - 1 }
{
    (sets::single(u64::from(n)) - 1) as u32
}

// What rows are made from: the words of all roles, and the row of everyone, whose set is all principals.
#[derive(Clone, Copy)]
struct Inclusions<'a> {
    words: &'a Words,
    all: u32,
    everyone: Row,

    ghost few: { words.now.count ≤ role_limit },
    ghost known: { everyone ≡ fixed_row words.now all },
}

impl Inclusions<'_> {
    // The row of a set. A role's viewers or trusters often are all principals: everyone's row, taken over, saves the pass over
    // all roles, 35 ns.
    fn row_of(&self, set: u32) -> Row
        ensures { result ≡ fixed_row self.now.words.now set }
    {
        if set == self.all {
            return self.everyone;
        }
        fixed_row(self.words, set)
    }

    // The rows of a role's viewers and trusters. Where these are the same, one row serves for both.
    fn rows_of(&self, watchers: Watchers) -> WatcherRows
        ensures { RowsOf self.now.words.now watchers result }
    {
        let viewers = self.row_of(watchers.viewers);
        if watchers.viewers == watchers.trusters {
            return WatcherRows {
                viewers,
                trusters: viewers,
            };
        }
        let trusters = self.row_of(watchers.trusters);
        WatcherRows { viewers, trusters }
    }

    // The same, where the rows of the role before are at hand.
    fn next_rows(&self, last: Watchers, rows: WatcherRows, watchers: Watchers) -> WatcherRows
        requires { RowsOf self.now.words.now last rows }
        ensures { RowsOf self.now.words.now watchers result }
    {
        if watchers == last {
            return rows;
        }
        self.rows_of(watchers)
    }
}

// At most a role are itself and all that is at most its viewers or its trusters.
fn role_row(rows: WatcherRows, j: u64) -> Row
    requires { j < role_limit }
    ensures { result ≡ with_role (union rows.viewers rows.trusters) j }
{
    rows.viewers.union(rows.trusters).with_role(j)
}

// The rows of role j, its viewers and its trusters, from those of the latter two.
fn write_role(table: &mut Table, j: usize, rows: WatcherRows)
    requires { j < role_limit }
    ensures { RoleRows rows j table.old table.new }
{
    table[j] = role_row(rows, j as u64);
    table[table::VIEWERS + j] = rows.viewers;
    table[table::TRUSTERS + j] = rows.trusters;
}

// The rows of all roles, their viewers and their trusters. The first role is held against everyone.
#[tactic(auto, using(crate::proofs::BaseLaws::fills))]
fn write_roles(table: &mut Table, inclusions: &Inclusions)
    ensures { Filled inclusions.now.words.now inclusions.now.words.now.count table.old table.new }
{
    let mut last = Watchers {
        viewers: inclusions.all,
        trusters: inclusions.all,
    };
    let mut rows = WatcherRows {
        viewers: inclusions.everyone,
        trusters: inclusions.everyone,
    };
    for j in 0..inclusions.words.count {
        let watchers = inclusions.words.at(j);
        rows = inclusions.next_rows(last, rows, watchers);
        last = watchers;
        write_role(table, j, rows);
    }
}

// The table with no query known. Everyone is all principals.
#[tactic(auto, using(crate::proofs::BaseLaws::facts, crate::proofs::BaseLaws::based))]
pub fn base_table(policy: &[u8], table: &mut Table)
    requires { Accepted policy.now }
    ensures { Knows policy.now [] table.new }
{
    let mut words = Words {
        viewers: [0; table::ROLES],
        trusters: [0; table::ROLES],
        count: usize::from(rows::roles_of(policy)),
    };
    words.load(policy);
    let all = all_of(rows::principals_of(policy));
    let everyone = fixed_row(&words, all);
    table[table::EVERYONE] = everyone;
    let inclusions = Inclusions {
        words: &words,
        all,
        everyone,
    };
    write_roles(table, &inclusions);
}
