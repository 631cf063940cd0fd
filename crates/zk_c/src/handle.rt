//! `with_value!`, `fill!`, `take_out!`, `put_in!`: the body of a call over a handle, of whichever type.

/// Takes the box out of `$self`, a `$handle` with a `$pointer`, and leaves nothing. If it holds none, the call returns `None`.
macro_rules! take_out {
    ($self:ident, $alloc:ident, $handle:ident, $pointer:ident) => {{
        let none = $handle {
            held: $pointer::none(),
            live: false,
        };
        let $handle { held, live } = std::mem::replace($self, none);
        if !live {
            return None;
        }
        Some(held.into_loose($alloc).into_box())
    }};
}

/// Puts the box `$value` into `$self`, a `$handle` with a `$pointer`, which holds nothing.
macro_rules! put_in {
    ($self:ident, $value:ident, $handle:ident, $pointer:ident) => {{
        let full = $handle {
            held: $pointer::of($crate::raw_box::Loose::of($value)),
            live: true,
        };
        let $handle { held: _, live: _ } = std::mem::replace($self, full);
    }};
}

/// Takes the value that the handle holds, answers by it, and puts it back. If the handle holds none, the call returns
/// `$none`. With `$side`, the number of a side, which in `$answer` is the `Side`, the call returns `$none::none` of a
/// status: `RANGE` if the number is no side's, `EMPTY` if the handle holds none.
macro_rules! with_value {
    ($handle:ident, $alloc:ident, $side:ident, $none:ident => |$value:ident| $answer:expr) => {{
        let Some($side) = $crate::number::side_of($side) else {
            return $none::none($crate::number::RANGE);
        };
        with_value!($handle, $alloc, $none::none($crate::number::EMPTY) => |$value| $answer)
    }};
    ($handle:ident, $alloc:ident, $none:expr => |$value:ident| $answer:expr) => {{
        let Some(mut $value) = $handle.take($alloc) else {
            return $none;
        };
        let answer = $answer;
        $handle.put($value);
        answer
    }};
}

/// Makes a value of the limits, and puts it into the handle; the status is `WELL`. The call returns `IN_USE` if the
/// handle holds a value, `RANGE` if `$limits` is `None`, and `NO_MEMORY` if memory is refused.
macro_rules! fill {
    ($handle:ident, $alloc:ident, $limits:expr => |$given:ident| $value:expr) => {{
        if $handle.live {
            return $crate::number::IN_USE;
        }
        let Some($given) = $limits else {
            return $crate::number::RANGE;
        };
        let Ok(value) = $value else {
            return $crate::number::NO_MEMORY;
        };
        let Ok(boxed) = Box::new($alloc, value) else {
            return $crate::number::NO_MEMORY;
        };
        $handle.put(boxed);
        $crate::number::WELL
    }};
}

pub(crate) use fill;
pub(crate) use put_in;
pub(crate) use take_out;
pub(crate) use with_value;
