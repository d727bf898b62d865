//! Words of 64 bits as a set: number n is bit n % 64 of word n / 64.

ghost use Rattle.std.specs.Prelude.{◌≡◌, ◌*◌, ◌<◌, ◌≤◌, length, not, IfSome};
ghost use Rattle.mpb_spec.specs.Numbers.{has, with_number, without, greatest};
ghost use Rattle.mpb_bits.specs.Sets.{members, united};

/// Whether the number is a member.
pub fn has_in(words: &[u64], number: u32) -> bool
    requires { number < 64 * length words.now }
    ensures { result ≡ has number (members words.now) }
{
    words[(number / 64) as usize] >> (number % 64) & 1 == 1
}

/// Adds the number, and answers whether it was absent.
pub fn put_in(words: &mut [u64], number: u32) -> bool
    requires { number < 64 * length words.old }
    ensures set { members words.new ≡ with_number number (members words.old) }
    ensures absent { result ≡ not (has number (members words.old)) }
{
    let there = has_in(words, number);
    words[(number / 64) as usize] |= 1 << (number % 64);
    !there
}

/// Removes the number, and answers whether it was there.
pub fn take_in(words: &mut [u64], number: u32) -> bool
    requires { number < 64 * length words.old }
    ensures set { members words.new ≡ without number (members words.old) }
    ensures there { result ≡ has number (members words.old) }
{
    let there = has_in(words, number);
    words[(number / 64) as usize] &= !(1 << (number % 64));
    there
}

/// The greatest member, from the highest word that is not 0.
pub fn top_in(words: &[u64]) -> Option<u32>
    requires { length words.now ≤ 65536 }
    ensures greatest { result ≡ greatest (members words.now) }
    ensures below { IfSome result (λ n. n < 64 * length words.now) }
{
    let mut place = words.len();
    while place > 0 {
        place -= 1;
        let word = words[place];
        if word != 0 {
            return Some(64 * place as u32 + word.ilog2());
        }
    }
    None
}

/// Adds the members of as many other words.
pub fn unite_in(words: &mut [u64], others: &[u64])
    requires { length others.now ≡ length words.old }
    ensures { members words.new ≡ united (members words.old) (members others.now) }
{
    for place in 0..words.len() {
        words[place] |= others[place];
    }
}

/// How many members there are: the ones of all words.
pub fn count_in(words: &[u64]) -> u32
    requires { length words.now ≤ 65536 }
    ensures { result ≡ length (members words.now) }
{
    let mut count = 0;
    for word in words {
        count += word.count_ones();
    }
    count
}
