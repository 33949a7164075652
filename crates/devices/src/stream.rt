//! Standard output and the error output by the names that files have for them.

/// A stream that the program was started with.
#[derive(Clone, Copy)]
pub(crate) enum Stream {
    Output,
    Errors,
}

/// The stream that a path names, if it names one.
pub(crate) fn stream_named(path: &str) -> Option<Stream> {
    match path {
        "/dev/stdout" | "/dev/fd/1" | "/proc/self/fd/1" => Some(Stream::Output),
        "/dev/stderr" | "/dev/fd/2" | "/proc/self/fd/2" => Some(Stream::Errors),
        _ => None,
    }
}

/// Whether a path names an open descriptor.
pub(crate) fn is_descriptor(path: &str) -> bool {
    path.starts_with("/dev/fd/") || path.starts_with("/proc/self/fd/")
}
