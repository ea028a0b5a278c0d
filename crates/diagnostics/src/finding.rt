//! The finding on a fault.

use std::alloc::{AllocError, Global};

/// The finding on a fault.
pub struct Finding {
    /// A sentence that says what is wrong, without its full stop.
    pub sentence: String,
    /// A hint.
    pub help: Option<String>,
    /// The offset of the byte that is shown, if it isn't that of the fault, which may have none.
    pub place: Option<usize>,
}

impl Drop for Finding {
    fn drop(self) {
        let Self {
            sentence: _,
            help: _,
            place: _,
        } = self;
    }
}

impl Finding {
    /// A sentence without a hint.
    pub fn new(sentence: String) -> Finding {
        Finding {
            sentence,
            help: None,
            place: None,
        }
    }

    /// A sentence that is the same for all texts.
    pub fn plain(alloc: Global, sentence: &str) -> Result<Finding, AllocError> {
        Ok(Finding::new(String::from_str(alloc, sentence)?))
    }

    /// The same with a hint.
    pub fn with_help(self, alloc: Global, help: &str) -> Result<Finding, AllocError> {
        let help = String::from_str(alloc, help)?;
        Ok(self.helped(help))
    }

    /// The same with a hint.
    pub fn helped(mut self, help: String) -> Finding {
        self.help = Some(help);
        self
    }

    /// The same with a byte that is shown, if it has none.
    pub fn at(mut self, place: usize) -> Finding {
        if self.place.is_none() {
            self.place = Some(place);
        }
        self
    }
}
