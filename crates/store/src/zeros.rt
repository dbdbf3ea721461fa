// Words made zero.
ghost use Rattle.std.specs.Prelude.{◌≡◌, ◌+◌, ◌≤◌, length, replicate};
ghost use Rattle.std.proofs.lemmas.List.Edits.{sets};
ghost use Rattle.paper.specs.Calls.{cleared};

// Zeros in place of n words from `at` on.
pub fn put_zeros(words: &mut [u32], at: usize, n: usize)
    requires { at + n ≤ length words.old }
    ensures { words.new ≡ sets words.old at (replicate n 0) }
{
    // Not `fill`: as a call of its own it takes some ten instructions more, and add cuts short runs of words back.
    for i in 0..n {
        words[at + i] = 0;
    }
}

// Makes the first n words zero.
pub fn clear(words: &mut [u32], n: usize)
    requires { n ≤ length words.old }
    ensures { words.new ≡ cleared n words.old }
{
    put_zeros(words, 0, n);
}
