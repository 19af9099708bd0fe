//! Listings worked out by hand from the rules: what each mapping places, and what each layer then takes away or locks.
use compiler::code::Code;
use compiler::compile;
use layers::exchange::*;
use layers::sparing::*;
use mapping::interface::Mapping;
use mapping::published::*;
use std::alloc::{AllocError, Global};
use std::fmt::Write;
use std::test::Fail;
use watchful::Watchful;

const BUFFERING: &str = "st x 1 sc;ld r0 y sc\nst y 1 sc;ld r0 x sc";

const UPDATE: &str = "st x 1 sc;add r0 y 2 rlx;ld r1 z sc";

const FENCES: &str = "fence acq;fence sc;ld r0 x sc;st y r0 rel";

const TWO_STORES: &str = "st x 1 rlx;st y 2 sc;xchg r0 z 3 ar;ld r1 x sc";

/// The instructions of each thread with `; ` between them, and ` | ` between the threads.
fn shown(heap: Global, code: &Code) -> Result<String, AllocError> {
    let mut text = String::new(heap);
    for (number, thread) in code.threads().iter().enumerate() {
        if number > 0 {
            text.push_str(" | ")?;
        }
        for (at, instruction) in thread.as_slice().iter().enumerate() {
            if at > 0 {
                text.push_str("; ")?;
            }
            write!(text, "{instruction}")?;
        }
    }
    Ok(text)
}

/// What a text is compiled to under a mapping.
fn listed<M: Mapping>(heap: Global, mapping: &M, text: &str) -> Result<String, AllocError> {
    match reader::read(text.as_bytes()) {
        Ok(program) => shown(heap, &compile(mapping, &program)),
        Err(fault) => format!(in heap; "{fault}"),
    }
}

#[test]
fn mappings_alone(rt: HostRuntime) -> Result<(), Fail> {
    let heap = rt.alloc();
    assert_eq!(rt;
        listed(heap, &Trailing, BUFFERING)?.as_str(),
        "mov [x],1; mfence; mov r0,[y] | mov [y],1; mfence; mov r0,[x]"
    );
    assert_eq!(rt;
        listed(heap, &Locked, BUFFERING)?.as_str(),
        "xchg [x],1; mov r0,[y] | xchg [y],1; mov r0,[x]"
    );
    assert_eq!(rt;
        listed(heap, &Leading, UPDATE)?.as_str(),
        "mov [x],1; lock xadd r0,[y],2; mfence; mov r1,[z]"
    );
    assert_eq!(rt;
        listed(heap, &Trailing, FENCES)?.as_str(),
        "mfence; mov r0,[x]; mov [y],r0"
    );
    assert_eq!(rt;
        listed(heap, &Leading, FENCES)?.as_str(),
        "mfence; mfence; mov r0,[x]; mov [y],r0"
    );
    assert_eq!(rt;
        listed(heap, &Watchful, FENCES)?.as_str(),
        "mfence; mov r0,[x]; mov [y],r0"
    );
    Ok(())
}

#[test]
fn sparing_alone(rt: HostRuntime) -> Result<(), Fail> {
    let heap = rt.alloc();
    // The fence after the store has it to flush.
    assert_eq!(rt;
        listed(heap, &Sparing(Trailing), UPDATE)?.as_str(),
        "mov [x],1; mfence; lock xadd r0,[y],2; mov r1,[z]"
    );
    // The update has flushed it, so the fence before the load has nothing to flush.
    assert_eq!(rt;
        listed(heap, &Sparing(Leading), UPDATE)?.as_str(),
        "mov [x],1; lock xadd r0,[y],2; mov r1,[z]"
    );
    assert_eq!(rt;
        listed(heap, &Sparing(Leading), FENCES)?.as_str(),
        "mfence; mov r0,[x]; mov [y],r0"
    );
    assert_eq!(rt;
        listed(heap, &Sparing(Locked), TWO_STORES)?.as_str(),
        "mov [x],1; xchg [y],2; xchg r0,[z],3; mov r1,[x]"
    );
    Ok(())
}

#[test]
fn exchange_and_both(rt: HostRuntime) -> Result<(), Fail> {
    let heap = rt.alloc();
    assert_eq!(rt;
        listed(heap, &Exchange(Trailing), TWO_STORES)?.as_str(),
        "mov [x],1; xchg [y],2; xchg r0,[z],3; mov r1,[x]"
    );
    // The fence stands before a load and not after a store.
    assert_eq!(rt;
        listed(heap, &Exchange(Leading), BUFFERING)?.as_str(),
        "mov [x],1; mfence; mov r0,[y] | mov [y],1; mfence; mov r0,[x]"
    );
    assert_eq!(rt;
        listed(heap, &Sparing(Exchange(Trailing)), UPDATE)?.as_str(),
        "xchg [x],1; lock xadd r0,[y],2; mov r1,[z]"
    );
    assert_eq!(rt;
        listed(heap, &Exchange(Sparing(Leading)), TWO_STORES)?.as_str(),
        "mov [x],1; mov [y],2; xchg r0,[z],3; mov r1,[x]"
    );
    Ok(())
}
