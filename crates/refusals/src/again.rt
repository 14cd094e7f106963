//! Calls that are made again where they are refused.

/// What a call gives, made again where it is refused: only one growth of a run is.
macro_rules! again {
    ($call:expr) => {
        match $call {
            Ok(given) => Some(given),
            Err(_) => $call.ok(),
        }
    };
}

pub(crate) use again;
