//! Execution graphs. Every graph that exists has sources and orders that fit its events.
ghost use Rattle.std.specs.Prelude.{◌≡◌, map, length};
ghost use Rattle.orders.specs.Orders.{members};
ghost use Rattle.graph.specs.Formed.{Formed};

use events::event::*;
use orders::order::*;

/// Events by their numbers, the source of each reading event, and for each location the order of its writes. Events and sources are two
/// arrays, and no plainer as one: `Graph::new` is handed both, and what fits is said of both.
#[derive(Clone, Copy)]
pub struct Graph {
    pub(crate) events: [Option<Event>; STATEMENTS],
    pub(crate) sources: [Option<u8>; STATEMENTS],
    pub(crate) mo: [Order; LOCATIONS],
    ghost formed: { Formed events sources (map members mo) },
    ghost rooms: { length events ≡ 32 },
    ghost places: { length sources ≡ 32 },
    ghost locations: { length mo ≡ 4 },
}
