//! The sets of events that the relations are made with.
ghost use Rattle.std.specs.Prelude.{◌≡◌};
ghost use Rattle.graph.specs.Execution.{view};
ghost use Rattle.consistency.specs.Relations.{update, release_write, release_fence, acquire_read, acquire_fence, sc, sc_fence};
ghost use Rattle.consistency.specs.Computed.{events};

use graph::facts::*;
use graph::graph::Graph;
use graph::parts::*;
use relations::rows::set_of;

/// What writes.
pub fn writes(graph: &Graph) -> u64
    ensures { result ≡ events (view graph.now).writes }
{
    set_of(|e| graph.is_write(e))
}

/// What reads and writes in one.
pub fn updates(graph: &Graph) -> u64
    ensures { result ≡ events (update (view graph.now)) }
{
    set_of(|e| graph.is_read(e) && graph.is_write(e))
}

/// The writes on the release side.
pub fn release_writes(graph: &Graph) -> u64
    ensures { result ≡ events (release_write (view graph.now)) }
{
    set_of(|e| graph.is_write(e) && graph.mode(e).is_release())
}

/// The fences on the release side.
pub fn release_fences(graph: &Graph) -> u64
    ensures { result ≡ events (release_fence (view graph.now)) }
{
    set_of(|e| graph.is_fence(e) && graph.mode(e).is_release())
}

/// The reads on the acquire side.
pub fn acquire_reads(graph: &Graph) -> u64
    ensures { result ≡ events (acquire_read (view graph.now)) }
{
    set_of(|e| graph.is_read(e) && graph.mode(e).is_acquire())
}

/// The fences on the acquire side.
pub fn acquire_fences(graph: &Graph) -> u64
    ensures { result ≡ events (acquire_fence (view graph.now)) }
{
    set_of(|e| graph.is_fence(e) && graph.mode(e).is_acquire())
}

/// What has mode sc.
pub fn sc_events(graph: &Graph) -> u64
    ensures { result ≡ events (sc (view graph.now)) }
{
    set_of(|e| graph.is_present(e) && graph.mode(e).is_sc())
}

/// The fences of mode sc.
pub fn sc_fences(graph: &Graph) -> u64
    ensures { result ≡ events (sc_fence (view graph.now)) }
{
    set_of(|e| graph.is_fence(e) && graph.mode(e).is_sc())
}
