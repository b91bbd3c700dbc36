// The list of segments, their classes, and the chain, whose entries are rows of the list.
ghost use Rattle.std.specs.Prelude.{◌≡◌, ◌&&◌, ◌||◌, map, ℕ, ◌≤◌, ◌<◌, ◌-◌, ◌+◌, get_or, take, length, ltb, eqb};
ghost use Rattle.std.specs.List.{list_all, enumerate_from};
ghost use Rattle.rows.specs.Definition.Lists.{first_place, last_of, tally, at, padded, up_to};
ghost use Rattle.rows.specs.Definition.Classes.{released, start_classes};
ghost use Rattle.rows.specs.Definition.Channels.{found_at};
ghost use Rattle.rows.specs.Definition.Tests.{class_fits, stands, list_test, class_test, chain_test, room_test, user_test};

// The classes, bytes as the tables, the logs and the C interface carry them. The page zero segment and unused rows have 0.
pub const FREE: u8 = 1;

pub const USER: u8 = 2;

pub const SYSTEM: u8 = 3;

pub const DEVICE: u8 = 4;

pub const SHARED: u8 = 5;

// The place of the first `k`, if there is one.
pub fn first_of(xs: &[u8], k: u8) -> Option<usize>
    ensures { result ≡ found_at (first_place k xs.now) (length xs.now) }
{
    xs.iter().position(|&x| x == k)
}

// The place of the last `k`, if there is one.
pub fn last_of(xs: &[u8], k: u8) -> Option<usize>
    ensures { result ≡ last_of k xs.now }
{
    xs.iter().rposition(|&x| x == k)
}

// How many are `k`.
pub fn count_of(xs: &[u8], k: u8) -> usize
    ensures { (result ≡ tally k xs.now) × (result ≤ length xs.now) }
{
    let mut found = 0;
    for &x in xs {
        if x == k {
            found += 1;
        }
    }
    found
}

pub(crate) fn zeros(xs: &[u8]) -> bool
    ensures { result ≡ list_all (λ x. eqb x 0) xs.now }
{
    let mut ok = true;
    for &x in xs {
        ok &= x == 0;
    }
    ok
}

fn below(xs: &[u8], n: usize) -> bool
    ensures { result ≡ list_all (λ x. ltb x n) xs.now }
{
    xs.iter().all(|&x| usize::from(x) < n)
}

fn rises(list: &[u8]) -> bool
    ensures { result ≡ up_to (length list.now - 1) (λ i. ltb (at list.now i) (at list.now (i + 1))) }
{
    list.is_sorted_by(|a, b| a < b)
}

// The first row has no class, each other has one.
fn classed(classes: &[u8]) -> bool
    ensures { result ≡ list_all (λ x. class_fits x.0 x.1) (enumerate_from 0 classes.now) }
{
    classes.iter().enumerate().all(|(i, &c)| if i == 0 {
        c == 0
    } else {
        FREE <= c && c <= SHARED
    })
}

// How often each row stands in the chain.
fn tallies(chain: &[u8]) -> [u8; 32]
    requires { length chain.now ≤ 32 }
    ensures { (i : ℕ) → i < 32 → get_or result i 0 ≡ tally i chain.now }
{
    let mut times = [0; 32];
    for &row in chain {
        if row < 32 {
            times[usize::from(row)] += 1;
        }
    }
    times
}

fn at(times: &[u8; 32], row: usize) -> u8
    ensures { result ≡ at times.now row }
{
    times.get(row).copied().unwrap_or(0)
}

// Each system and shared segment stands once, no other does, and a shared one is `last`.
fn stand(classes: &[u8], times: &[u8; 32], last: usize) -> bool
    ensures { result ≡ list_all (λ x. stands x.1 (at times.now x.0) last x.0) (enumerate_from 0 classes.now) }
{
    classes.iter().enumerate().all(|(i, &c)| {
        let held = c == SYSTEM || c == SHARED;
        at(times, i) == u8::from(held) && (c != SHARED || last == i)
    })
}

// The chain is exactly the system and shared segments without a repeat, and a shared one is `last`.
fn exact(classes: &[u8], chain: &[u8], last: usize) -> bool
    requires { (length classes.now ≤ 32) × (length chain.now ≤ 32) }
    ensures { result ≡ list_all (λ x. stands x.1 (tally x.0 chain.now) last x.0) (enumerate_from 0 classes.now) }
{
    stand(classes, &tallies(chain), last)
}

// The tests take whole arrays with a length, since they ask for the unused rows too.
pub fn list_test(list: &[u8; 32], n: usize) -> bool
    ensures { result ≡ list_test list.now n }
{
    2 <= n && n <= 32 && rises(&list[..n]) && 7 < list[0] && list[n - 1] == 255 && zeros(&list[n..])
}

pub fn class_test(classes: &[u8; 32], n: usize) -> bool
    requires { n ≤ 32 }
    ensures { result ≡ class_test classes.now n }
{
    classed(&classes[..n]) && zeros(&classes[n..])
}

pub fn chain_test(classes: &[u8; 32], chain: &[u8; 32], held: usize, n: usize) -> bool
    requires { (1 ≤ held) × (held ≤ 32) × (1 ≤ n) × (n ≤ 32) }
    ensures { result ≡ chain_test classes.now chain.now held n }
{
    usize::from(chain[0]) == n - 1
        && below(&chain[..held], n)
        && exact(&classes[..n], &chain[..held], usize::from(chain[held - 1]))
        && zeros(&chain[held..])
}

pub fn room_test(room: u16, cold: u16) -> bool
    ensures { result ≡ room_test room cold }
{
    256 <= room && room <= cold && cold <= 16128
}

// The user boundary, against the class of the chain's last segment and the EXOS boundary.
pub fn user_test(class: u8, user: u16, edge: u16) -> bool
    ensures { result ≡ user_test class user edge }
{
    user <= edge && (class == SHARED || user == 0)
}

// The first 32 of `s`, and zeros behind.
pub fn lay(s: &[u8]) -> [u8; 32]
    ensures { result ≡ padded 32 (take 32 s.now) }
{
    let mut rows = [0; 32];
    let n = s.len().min(32);
    rows[..n].copy_from_slice(&s[..n]);
    rows
}

// The classes of `n` segments after a start.
pub fn fresh_classes(n: usize) -> [u8; 32]
    requires { (2 ≤ n) × (n ≤ 32) }
    ensures { result ≡ start_classes n }
{
    let mut rows = [0; 32];
    rows[1..n - 1].fill(FREE);
    rows[n - 1] = SYSTEM;
    rows
}

// A user segment becomes free, a shared one system.
fn release_one(class: u8) -> u8
    ensures { result ≡ released class }
{
    match class {
        USER => FREE,
        SHARED => SYSTEM,
        _ => class,
    }
}

// Releases each class.
pub fn release(classes: &mut [u8; 32])
    ensures { classes.new ≡ map released classes.old }
{
    for class in classes {
        *class = release_one(*class);
    }
}
