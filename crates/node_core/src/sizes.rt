//! How much messages and those who wait write. The types keep it; these functions only say so.
ghost use Rattle.node_core.specs.Sizes.{IsSmallBody, IsSmallInput, IsSmallWaiter};
ghost use Rattle.std.specs.Prelude.{◌≡◌, true};

use str_model::{Body, Input, Waiter};

/// Whether a message writes no more than 16 keys, as each does.
fn is_small_body(body: &Body) -> bool
    ensures small { IsSmallBody body.now }
    ensures always { result ≡ true }
{
    match body {
        Body::Prepare { writes, .. } | Body::Replicate { writes, .. } => writes.len() <= 16,
        _ => true,
    }
}

/// Whether an input writes no more than 16 keys, as each does.
pub(crate) fn is_small_input(input: &Input) -> bool
    ensures small { IsSmallInput input.now }
    ensures always { result ≡ true }
{
    match input {
        Input::Client { .. } => true,
        Input::Deliver(message) => is_small_body(&message.body),
    }
}

/// Whether one who waits writes no more than 16 keys, as each does.
pub(crate) fn is_small_waiter(waiter: &Waiter) -> bool
    ensures small { IsSmallWaiter waiter.now }
    ensures always { result ≡ true }
{
    match waiter {
        Waiter::Read { .. } => true,
        Waiter::Held(arrived) => arrived.writes.len() <= 16,
    }
}
