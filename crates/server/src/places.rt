// What is asked of numbers that are held, and of their places.
ghost use Rattle.std.specs.Prelude.{◌≡◌, Bool, ℕ, ◌<◌, ◌≤◌, position};
ghost use Rattle.identifiers.specs.Below.{count_below};
ghost use Rattle.std.specs.List.{IsAllAdjacentAnswer};
ghost use Rattle.std.specs.Ordering.{partial_lt};

// The first place at which a number is held.
pub fn place_of<T: PartialEq>(held: &[T], number: &T) -> Option<usize>
    ensures { result ≡ position (λ y. T.eq y number.now) held.now }
{
    held.iter().position(|one| one == number)
}

// Does each number stand below the next: every place is looked at, so that no branch hangs on it. With early exits, as `is_sorted_by` has, `14`
// took 1.29 of the time of the model, where the reach is 1.1, and `3E` takes 933 instructions, so 608.
pub fn ascend<T: PartialOrd + Copy>(numbers: &[T]) -> bool
    ensures { IsAllAdjacentAnswer (λ x y b. b ≡ partial_lt T.partial_cmp x y) numbers.now result }
{
    let mut sound = true;
    for i in 1..numbers.len() {
        sound = sound & (numbers[i - 1] < numbers[i]);
    }
    sound
}

// How many of n places have it. Counted in a byte, so that the loop vectorises: in a wider number `19 01` took 1.39 of the time of the model,
// so 0.93. The reach of requests is 1.1.
pub fn count_where<F: Fn(usize) -> bool>(n: usize, has: F) -> usize
    requires few { n ≤ 63 }
    requires calls { (i : ℕ) → i < n → F.pre has i }
    ensures { (p : ℕ → Bool) → ((i : ℕ) (b : Bool) → i < n → F.post has i b → b ≡ p i) → result ≡ count_below p n }
{
    let mut count: u8 = 0;
    for i in 0..n {
        if has(i) {
            count += 1;
        }
    }
    count as usize
}
