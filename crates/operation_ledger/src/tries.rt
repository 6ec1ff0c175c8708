ghost use Rattle.std.specs.Prelude.{◌≡◌, ◌≤◌, ◌<◌, ◌+◌, ◌∷◌, ℕ, min, nat_eq, if◌then◌else◌};
ghost use Rattle.std.specs.Vec.{vec_len, vec_capacity};
ghost use Rattle.operation_ledger.specs.Tries.{tries_of as the_tries};

/// How often in a row a file's lock was found held, counted up to 63, by the file's number.
#[derive(Clone, Copy, Debug, PartialEq, Eq)]
pub struct HeldTries {
    pub file: usize,
    pub held: u8,
}

/// The tries that come before one that holds an operation off.
pub const TRIES_BEFORE: u8 = 63;

/// How often in a row a file's lock was found held.
pub fn tries_of(tries: &[HeldTries], file: usize) -> u8
    ensures { result ≡ the_tries tries.now file }
{
    let mut rest = tries;
    while let [first, tail @ ..] = rest {
        if first.file == file {
            return first.held;
        }
        rest = tail;
    }
    0
}

/// One more, up to 63.
fn one_more(held: u8) -> u8
    ensures { result ≡ min 63 (held + 1) }
{
    if held < TRIES_BEFORE {
        held + 1
    } else {
        TRIES_BEFORE
    }
}

/// Forgets the tries for a file's lock.
fn forget(tries: &mut Vec<HeldTries>, file: usize)
    ensures tries { (f : ℕ) → the_tries tries.new.items f ≡ (if nat_eq file f then 0 else the_tries tries.old.items f) }
    ensures len { vec_len tries.new ≤ vec_len tries.old }
    ensures capacity { vec_capacity tries.new ≡ vec_capacity tries.old }
{
    tries.retain(|one| one.file != file);
}

/// Adds tries, in memory that was taken for them.
fn add(tries: &mut Vec<HeldTries>, one: HeldTries)
    requires { vec_len tries.old < vec_capacity tries.old }
    ensures { tries.new.items ≡ one ∷ tries.old.items }
{
    let _added = tries.insert(0, one);
}

/// Counts a try for a file's lock, in memory that was taken for it.
pub fn count_try(tries: &mut Vec<HeldTries>, file: usize, is_held: bool)
    requires { vec_len tries.old < vec_capacity tries.old }
    ensures { (f : ℕ) → the_tries tries.new.items f ≡ (if nat_eq file f then (if is_held then min 63 (the_tries tries.old.items f + 1) else 0) else the_tries tries.old.items f) }
{
    let held = tries_of(tries, file);
    forget(tries, file);
    if is_held {
        add(
            tries,
            HeldTries {
                file,
                held: one_more(held),
            },
        );
    }
}
