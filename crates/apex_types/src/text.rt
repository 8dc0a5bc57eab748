// Names and messages. A contract sees each as the list of its bytes.

ghost use Rattle.std.specs.Prelude.{◌≡◌, []};

use std::alloc::{AllocError, Global};
use std::marker::Model;

/// A name of a process, an object or a port, in ASCII.
#[derive(Debug, Drop)]
pub struct Name {
    bytes: Vec<u8>,
}

impl Model for Name {
    ghost use Rattle.std.specs.Prelude.{ℕ, List};

    ghost Value = { List ℕ };

    ghost view = { λ name. name.bytes.items };
}

impl Name {
    /// The name of these bytes. Takes no memory.
    pub fn new(bytes: Vec<u8>) -> Name
        ensures { result ≡ bytes.items }
    {
        Name { bytes }
    }

    /// The empty name. Takes no memory.
    pub fn empty(alloc: Global) -> Name
        ensures { result ≡ [] }
    {
        Name {
            bytes: Vec::new(alloc),
        }
    }

    /// The bytes of the name.
    pub fn as_bytes(&self) -> &[u8]
        ensures { result.now ≡ self.now }
    {
        &self.bytes
    }
}

impl Clone for Name {
    ghost is_clone = { λ name copy. copy ≡ name };

    fn clone(&self) -> Result<Name, AllocError> {
        Ok(Name {
            bytes: self.bytes.clone()?,
        })
    }
}

/// A message, by its bytes. It is empty if the record has none.
#[derive(Debug, Drop)]
pub struct Message {
    bytes: Vec<u8>,
}

impl Model for Message {
    ghost use Rattle.std.specs.Prelude.{ℕ, List};

    ghost Value = { List ℕ };

    ghost view = { λ message. message.bytes.items };
}

impl Message {
    /// The message of these bytes. Takes no memory.
    pub fn new(bytes: Vec<u8>) -> Message
        ensures { result ≡ bytes.items }
    {
        Message { bytes }
    }

    /// The empty message. Takes no memory.
    pub fn empty(alloc: Global) -> Message
        ensures { result ≡ [] }
    {
        Message {
            bytes: Vec::new(alloc),
        }
    }

    /// The bytes of the message.
    pub fn as_bytes(&self) -> &[u8]
        ensures { result.now ≡ self.now }
    {
        &self.bytes
    }
}

impl Clone for Message {
    ghost is_clone = { λ message copy. copy ≡ message };

    fn clone(&self) -> Result<Message, AllocError> {
        Ok(Message {
            bytes: self.bytes.clone()?,
        })
    }
}
