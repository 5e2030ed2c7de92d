// What a loaded grammar has. It stands in a file of its own, apart from what `load` promises of it: specs/Loaded.antt names it.
ghost use Rattle.std.specs.Prelude.{◌<◌, ◌^◌};

// A rule and the root of its body. An image has both in fields of at most 12 bits.
#[derive(Clone, Copy)]
pub struct Body {
    pub rule: usize,
    pub root: usize,
    ghost rule_fits: { rule < 4096 },
    ghost root_fits: { root < 4096 },
}

// A word for each number that a field of 12 bits can have, the number of rules, and the start rule. The nodes stay words: there is no heap,
// and decoded they would take 96 KiB of the stack where they take 16.
#[derive(Drop)]
pub struct LoadedGrammar {
    pub words: [u32; 4096],
    pub rules: usize,
    pub start: Body,
    ghost few_rules: { rules < 2 ^ 32 },
}
