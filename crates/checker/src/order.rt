// What the rounds go over: the nodes, and the order in which a round visits them. Children stand above their parents, so from the highest
// node down a round learns a whole tree at once. There is no heap: 1,024 is the most nodes.
ghost use Rattle.std.specs.Prelude.{◌≤◌, ◌≡◌, length, take};
ghost use Rattle.grammar.specs.Image.{nodes};
ghost use Rattle.rounds.specs.Order.{descending};

use visits::Nodes;

// As many nodes as there are places, from the highest down to 0. `as` narrows what is below 1,024.
fn count_down(places: &mut [u16])
    requires { length places.old ≤ 1024 }
    ensures { places.new ≡ descending (length places.old) }
{
    let count = places.len();
    for (i, place) in places.iter_mut().enumerate() {
        *place = (count - 1 - i) as u16;
    }
}

// The nodes from the highest down to 0.
pub fn round_order(all: &Nodes<'_>) -> [u16; 1024]
    ensures { take (nodes all.now.image.now) result ≡ descending (nodes all.now.image.now) }
{
    let mut order = [0u16; 1024];
    count_down(&mut order[..all.count]);
    order
}

// The nodes, and all their numbers from the highest down. The modules `outcomes` and `formed` make the rounds.
#[derive(Drop)]
pub struct Rounds<'a> {
    pub all: &'a Nodes<'a>,
    pub order: &'a [u16],
    ghost downward: { order.now ≡ descending (nodes all.now.image.now) },
}

impl<'a> Rounds<'a> {
    // The rounds over the nodes, whose numbers stand first in the places.
    pub fn over(all: &'a Nodes<'a>, places: &'a [u16; 1024]) -> Rounds<'a>
        requires { take (nodes all.now.image.now) places.now ≡ descending (nodes all.now.image.now) }
        ensures { result.all.now.image.now ≡ all.now.image.now }
    {
        Rounds {
            all,
            order: &places[..all.count],
        }
    }
}
