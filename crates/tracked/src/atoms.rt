// The sets of all atoms, a word for each byte that an atom may have: a role's meaning, its viewers, its trusters, everyone.
// A query is two words and a test. An update leaves all but the meanings as they are, since they are of the fixed part.
ghost use Rattle.std.specs.Prelude.{◌≡◌, ◌-◌, ◌^◌, ◌<◌, ◌≤◌, length, get_or};
ghost use Rattle.model.specs.Limits.{principal_limit, role_limit};
ghost use Rattle.model.specs.Sets.{within};
ghost use Rattle.model.specs.Policy.{roles, Accepted};
ghost use Rattle.tracked.specs.Live.{Live, FixedLive, Watched};

use meaning::least;
use policy::rows;
use shared::sets;

// How many words there are, and where those of viewers, trusters and everyone stand.
pub const WORDS: usize = 256;

const VIEWERS: usize = 0x40;

const TRUSTERS: usize = 0x80;

const EVERYONE: usize = 0xff;

// The viewers and trusters of all n roles.
#[tactic(auto, using(crate::proofs::AtomLaws::watchings))]
fn load_watchers(policy: &[u8], n: usize, atoms: &mut [u32; WORDS])
    requires { (Accepted policy.now) × (n ≡ roles policy.now) × (n ≤ role_limit) }
    ensures { Watched policy.now n atoms.new }
{
    for j in 0..n {
        atoms[VIEWERS + j] = rows::viewers_of(policy, j);
        atoms[TRUSTERS + j] = rows::trusters_of(policy, j);
    }
}

// All of n principals.
#[tactic(auto, using(crate::proofs::AtomLaws::alls))]
fn all_of(n: u64) -> u32
    requires { n ≤ principal_limit }
    ensures { result ≡ 2 ^ n - 1 }
{
    (sets::single(n) - 1) as u32
}

// The sets that the fixed part gives.
#[tactic(auto, using(crate::proofs::AtomLaws::loads))]
fn load_fixed(policy: &[u8], atoms: &mut [u32; WORDS])
    requires { Accepted policy.now }
    ensures { FixedLive policy.now atoms.new }
{
    load_watchers(policy, usize::from(rows::roles_of(policy)), atoms);
    atoms[EVERYONE] = all_of(u64::from(rows::principals_of(policy)));
}

// The meanings of the policy.
fn load_meanings(policy: &[u8], atoms: &mut [u32; WORDS])
    requires { FixedLive policy.now atoms.old }
    ensures { Live policy.now atoms.new }
{
    let roles = usize::from(rows::roles_of(policy));
    least::all_meanings(policy, &mut atoms[..roles]);
}

// The sets of all atoms under a policy.
pub fn load(policy: &[u8], atoms: &mut [u32; WORDS])
    requires { Accepted policy.now }
    ensures { Live policy.now atoms.new }
{
    load_fixed(policy, atoms);
    load_meanings(policy, atoms);
}

// Whether a query holds: the second atom's set lies in the first's.
pub fn holds(atoms: &[u32; WORDS], first: u8, second: u8) -> bool
    ensures { result ≡ within (get_or atoms.now second 0) (get_or atoms.now first 0) }
{
    let outer = atoms[usize::from(first)];
    let inner = atoms[usize::from(second)];
    inner & outer == inner
}
