// Outcome sets as numbers: 1 for "matches nothing long", 2 for "consumes", 4 for "fails", added up. They stay numbers, since rounds' own
// definitions have them so (rounds/specs/Sets.antt) and a set is the place of its row and column in the tables.
ghost use Rattle.std.specs.Prelude.{◌<◌, ◌≡◌};
ghost use Rattle.grammar.specs.Outcomes.{matches_empty, consumes, fails};
ghost use Rattle.rounds.specs.Sets.{bit, union};

// Whether a set has the outcome 0, 1 or f.
pub fn has_empty(set: u8) -> bool
    ensures { result ≡ bit matches_empty set }
{
    set % 2 == 1
}

pub fn has_consumes(set: u8) -> bool
    ensures { result ≡ bit consumes set }
{
    set / 2 % 2 == 1
}

pub fn has_fails(set: u8) -> bool
    ensures { result ≡ bit fails set }
{
    set / 4 % 2 == 1
}

// The outcomes of either set.
pub fn join(a: u8, b: u8) -> u8
    ensures { (result ≡ union a b) × (result < 8) }
{
    a % 8 | b % 8
}
