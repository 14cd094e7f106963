//! What comes of a task.

use omega_net::Net;

/// A file that is to be written.
#[derive(Drop)]
pub struct OutFile {
    pub name: String,
    pub bytes: Vec<u8>,
}

/// What comes of a task: what goes to standard output, and the files.
#[derive(Drop)]
pub struct Outcome {
    pub printed: Vec<u8>,
    pub files: Vec<OutFile>,
    /// A folder that is to be there before the files are written.
    pub folder: Option<String>,
    /// Of a map: the network that all references of its file are on, where that isn't the one that is drawn.
    pub elsewhere: Option<Net>,
}
