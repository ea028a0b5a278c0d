//! Findings on the fault of a text, as far as its tree allows.

use crate::configurations::configuration_reason;
use crate::explaining::explained;
use crate::fault::SourceFault;
use crate::finding::Finding;
use crate::reasons::finding_of;
use crate::site::Site;
use crate::spelling::Text;
use st_lex::{Token, lex};
use st_parse::parse;
use st_rules::Broken;
use std::alloc::{AllocError, Global};

/// The finding on a broken rule of a text.
pub fn broken_rule_reason(text: Text, broken: Broken) -> Result<Finding, AllocError> {
    let site = Site::new(text, broken.place)?;
    finding_of(&site, broken.reason)
}

/// The finding on the fault of a text with these tokens, if they have a tree.
fn tokens_reason(
    alloc: Global,
    bytes: &[u8],
    tokens: &[Token],
    fault: SourceFault,
) -> Result<Finding, AllocError> {
    let Ok(source) = parse(alloc, tokens) else {
        return explained(alloc, bytes, fault);
    };
    let text = Text {
        alloc,
        bytes,
        tokens,
        source: &source,
    };
    match fault {
        SourceFault::Rule(broken) => broken_rule_reason(text, broken),
        SourceFault::Whole(whole) => configuration_reason(&text, whole),
        _ => explained(alloc, bytes, fault),
    }
}

/// The finding on the fault of a text, as far as its tokens and their tree allow.
pub fn reason(alloc: Global, text: &[u8], fault: SourceFault) -> Result<Finding, AllocError> {
    match lex(alloc, text) {
        Ok(tokens) => tokens_reason(alloc, text, &tokens, fault),
        Err(_) => explained(alloc, text, fault),
    }
}
