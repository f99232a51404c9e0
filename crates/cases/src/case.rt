// One case, by its number.

// It fixes the first `fixed` facts to the top bits of `word`, fact 0 to the top one.
#[derive(Clone, Copy)]
pub struct Case {
    pub fixed: usize,
    pub word: u64,
}
