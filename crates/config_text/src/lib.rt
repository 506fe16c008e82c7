//! The text of a configuration in either edition, and the law that no text is that of two configurations; it writes the
//! second edition alone.
//!
//! A configuration's text is its lines, one after another: the first line of its edition, the classes, and then the blocks
//! of the routers. `specs/ConfigText` says these lines, `specs/Spelled` which configuration a text spells in an edition.
//! `texts_spell_one_configuration` says that a text says all that there is to say of its configuration. A configuration has
//! one text in an edition, and a text one configuration, since the first line differs. `print_config` writes the second
//! edition. Every lawful configuration has such a text, also one that was written in the first
//! (`configurations_have_texts`).
//!
//! A large text is nearly all import and export lines, and each piece that is added to a text asks for room and is copied.
//! So a line is written from its end: its pieces are put one in front of another in an array of 96 bytes (`Tail`), and the
//! line is added to the text once. The digits of a number come in that order by themselves, the last one first. An import
//! line has at most 90 bytes.
//!
//! How the tags of a block begin, an AS number and `:0:` (RFC 8092), is written once for each of its two numbers (`Front`).
//! A tag with another number is written whole, so no contract asks which number a tag has.
//!
//! It knows nothing of policies and evidence.
#![tactic(auto)]

ghost use Rattle.std.specs.Prelude.{◌≡◌, ◌++◌, ◌+◌, ◌≤◌, codes, length, if◌then◌else◌, OnOk, IfOk};
ghost use Rattle.std.specs.List.{flat_map, AllByRecursion};
ghost use Rattle.config_text.specs.ConfigText.{class_line, class_lines, own_line, session_line, import_line, export_line, session_text, router_text, config_text};
ghost use Rattle.config_lines.specs.Editions.{tag_text};
ghost use Rattle.config_lines.specs.LineText.{read_tag, set_text, next_pattern, joined_patterns};
ghost use Rattle.config_lines.specs.declared.edition.Edition.TheVariants.{Second};
ghost use Rattle.config_text.specs.declared.tail.TheConstants.{MOST_BYTES};
ghost use Rattle.config_text.specs.Spelled.{ArePatterns, HasPrefix, IsNamed, HasLawfulParts, Spells};

use config_base::{Config, Export, Import, Origination, RouterConfig, Session};
use config_lines::Edition;
use input_output::NoMemory;
use net_base::{List, Pattern, Tag};
use std::alloc::Global;
use tail::{Front, Tail};
use text_parts::{push_address, push_bytes, push_name, push_number, push_pattern, push_prefix};

mod law;
mod tail;

pub use law::{configurations_have_texts, texts_are_lines, texts_spell_one_configuration};

// As many bytes as most lines have.
const LINE_BYTES: usize = 48;

// Adds patterns, each after a comma and a space.
fn push_more_patterns(text: &mut Vec<u8>, patterns: &[Pattern]) -> Result<(), NoMemory>
    ensures text { OnOk result (text.new.items ≡ text.old.items ++ flat_map next_pattern patterns.now) }
    ensures rules { OnOk result (ArePatterns patterns.now) }
{
    for pattern in patterns {
        push_bytes(text, b", ")?;
        push_pattern(text, *pattern)?;
    }
    Ok(())
}

// Adds the patterns, joined by a comma and a space.
fn push_patterns(text: &mut Vec<u8>, patterns: &[Pattern]) -> Result<(), NoMemory>
    ensures text { OnOk result (text.new.items ≡ text.old.items ++ joined_patterns patterns.now) }
    ensures rules { OnOk result (ArePatterns patterns.now) }
{
    match patterns {
        [] => Ok(()),
        [first, rest @ ..] => {
            push_pattern(text, *first)?;
            push_more_patterns(text, rest)
        }
    }
}

// Adds the line of a class.
fn push_class(text: &mut Vec<u8>, number: u64, patterns: &[Pattern]) -> Result<(), NoMemory>
    ensures text { OnOk result (text.new.items ≡ text.old.items ++ class_line Second number patterns.now) }
    ensures rules { OnOk result (ArePatterns patterns.now) }
{
    push_bytes(text, b"class ")?;
    push_number(text, number)?;
    push_bytes(text, b" ")?;
    push_patterns(text, patterns)?;
    push_bytes(text, b"\n")
}

// Adds the lines of the classes, numbered from 1.
fn push_classes(text: &mut Vec<u8>, classes: &[List<Pattern>]) -> Result<(), NoMemory>
    ensures text { OnOk result (text.new.items ≡ text.old.items ++ class_lines Second 1 classes.now) }
    ensures rules { OnOk result (AllByRecursion ArePatterns classes.now) }
{
    let mut number = 1;
    for patterns in classes {
        push_class(text, number, patterns.as_slice())?;
        number += 1;
    }
    Ok(())
}

// The end of a line that names a tag.
fn tag_end(tag: Tag, front: &Front) -> Tail
    ensures text { result ≡ codes " tag " ++ tag_text Second tag ++ codes "\n" }
    ensures len { length result ≤ 32 }
{
    let mut tail = Tail::new();
    tail.put(b"\n");
    tail.put_tag(tag, front);
    tail.put(b" tag ");
    tail
}

// Adds an originate line.
fn push_origination(text: &mut Vec<u8>, near: &Front, own: &Origination) -> Result<(), NoMemory>
    ensures text { OnOk result (text.new.items ≡ text.old.items ++ own_line Second own.now) }
    ensures rules { OnOk result (HasPrefix own.now) }
{
    push_bytes(text, b"originate ")?;
    push_number(text, u64::from(own.class))?;
    push_bytes(text, b" ")?;
    push_prefix(text, own.prefix)?;
    push_bytes(text, tag_end(own.tag, near).as_slice())
}

// Puts the tag that an import reads before what the import gives: none in the block of a peer.
#[tactic(auto, unfolding(config_lines::specs::LineText::read_tag))]
fn put_read_tag(tail: &mut Tail, far: &Front, peer: bool, tag: Tag)
    requires { 31 + length tail.old ≤ MOST_BYTES }
    ensures text { tail.new ≡ read_tag Second peer tag ++ tail.old }
    ensures len { length tail.new ≤ 31 + length tail.old }
{
    if peer {
        return;
    }
    tail.put_tag(tag, far);
    tail.put(b" tag ");
}

// What an import gives a route, and the end of its line.
fn set_end(rule: &Import, near: &Front) -> Tail
    ensures text { result ≡ set_text Second rule.now ++ codes "\n" }
    ensures len { length result ≤ 48 }
{
    let mut tail = Tail::new();
    tail.put(b"\n");
    tail.put_number(rule.pref);
    tail.put(b" pref ");
    tail.put_tag(rule.set, near);
    tail.put(b" set ");
    tail
}

// Adds an import line.
#[tactic(auto, unfolding(crate::specs::ConfigText::import_line, config_lines::specs::LineText::import_text))]
fn push_import(
    text: &mut Vec<u8>,
    near: &Front,
    far: &Front,
    peer: bool,
    rule: &Import,
) -> Result<(), NoMemory>
    ensures { OnOk result (text.new.items ≡ text.old.items ++ import_line Second peer rule.now) }
{
    let mut tail = set_end(rule, near);
    put_read_tag(&mut tail, far, peer, rule.tag);
    tail.put_number(rule.class);
    tail.put(b"import ");
    push_bytes(text, tail.as_slice())
}

// Adds an export line.
fn push_export(text: &mut Vec<u8>, near: &Front, export: &Export) -> Result<(), NoMemory>
    ensures { OnOk result (text.new.items ≡ text.old.items ++ export_line Second export.now) }
{
    let mut tail = tag_end(export.tag, near);
    tail.put_number(export.class);
    tail.put(b"export ");
    push_bytes(text, tail.as_slice())
}

// The first word of a neighbour's block.
fn kind_word(session: &Session) -> &'static [u8]
    ensures { result.now ≡ (if session.now.peer then codes "peer " else codes "session ") }
{
    if session.peer { b"peer " } else { b"session " }
}

// Adds the head line of a neighbour's block.
fn push_head(text: &mut Vec<u8>, session: &Session) -> Result<(), NoMemory>
    ensures text { OnOk result (text.new.items ≡ text.old.items ++ session_line session.now) }
    ensures rules { OnOk result (IsNamed session.now) }
{
    let mut tail = Tail::new();
    tail.put(b"\n");
    tail.put_number(session.asn);
    tail.put(b" asn ");
    tail.put_name(&session.name);
    tail.put(kind_word(session));
    push_bytes(text, tail.as_slice())
}

// Adds the import lines.
fn push_imports(
    text: &mut Vec<u8>,
    near: &Front,
    far: &Front,
    peer: bool,
    rules: &[Import],
) -> Result<(), NoMemory>
    ensures { OnOk result (text.new.items ≡ text.old.items ++ flat_map (import_line Second peer) rules.now) }
{
    for rule in rules {
        push_import(text, near, far, peer, rule)?;
    }
    Ok(())
}

// Adds the export lines.
fn push_exports(text: &mut Vec<u8>, near: &Front, exports: &[Export]) -> Result<(), NoMemory>
    ensures { OnOk result (text.new.items ≡ text.old.items ++ flat_map (export_line Second) exports.now) }
{
    for export in exports {
        push_export(text, near, export)?;
    }
    Ok(())
}

// Adds the originate lines.
fn push_originations(text: &mut Vec<u8>, near: &Front, owns: &[Origination]) -> Result<(), NoMemory>
    ensures text { OnOk result (text.new.items ≡ text.old.items ++ flat_map (own_line Second) owns.now) }
    ensures rules { OnOk result (AllByRecursion HasPrefix owns.now) }
{
    for own in owns {
        push_origination(text, near, own)?;
    }
    Ok(())
}

// Adds the block of a neighbour.
fn push_session(text: &mut Vec<u8>, near: &Front, session: &Session) -> Result<(), NoMemory>
    ensures text { OnOk result (text.new.items ≡ text.old.items ++ session_text Second session.now) }
    ensures rules { OnOk result (IsNamed session.now) }
{
    let far = Front::of(session.asn);
    push_head(text, session)?;
    push_imports(text, near, &far, session.peer, session.imports.as_slice())?;
    push_exports(text, near, session.exports.as_slice())
}

// Adds the blocks of the neighbours.
fn push_sessions(text: &mut Vec<u8>, near: &Front, sessions: &[Session]) -> Result<(), NoMemory>
    ensures text { OnOk result (text.new.items ≡ text.old.items ++ flat_map (session_text Second) sessions.now) }
    ensures rules { OnOk result (AllByRecursion IsNamed sessions.now) }
{
    for session in sessions {
        push_session(text, near, session)?;
    }
    Ok(())
}

// Adds the block of a router.
fn push_router(text: &mut Vec<u8>, router: &RouterConfig) -> Result<(), NoMemory>
    ensures text { OnOk result (text.new.items ≡ text.old.items ++ router_text Second router.now) }
    ensures rules { OnOk result (HasLawfulParts router.now) }
{
    let near = Front::of(router.asn);
    push_bytes(text, b"router ")?;
    push_name(text, &router.name)?;
    push_bytes(text, b" asn ")?;
    push_number(text, u64::from(router.asn))?;
    push_bytes(text, b" id ")?;
    push_address(text, router.id)?;
    push_bytes(text, b"\n")?;
    push_originations(text, &near, router.own.as_slice())?;
    push_sessions(text, &near, router.sessions.as_slice())?;
    push_bytes(text, b"end\n")
}

// Adds the blocks of the routers.
fn push_routers(text: &mut Vec<u8>, routers: &[RouterConfig]) -> Result<(), NoMemory>
    ensures text { OnOk result (text.new.items ≡ text.old.items ++ flat_map (router_text Second) routers.now) }
    ensures rules { OnOk result (AllByRecursion HasLawfulParts routers.now) }
{
    for router in routers {
        push_router(text, router)?;
    }
    Ok(())
}

// How many imports and exports a router's neighbours have.
fn lines_of(sessions: &[Session]) -> usize {
    let mut lines = 0usize;
    for session in sessions {
        lines = lines.saturating_add(session.imports.as_slice().len());
        lines = lines.saturating_add(session.exports.as_slice().len());
    }
    lines
}

// Room for the lines of routers, which is asked for once. Where it falls short, the text grows.
fn room_for(routers: &[RouterConfig]) -> usize {
    let mut lines = 0usize;
    for router in routers {
        lines = lines.saturating_add(lines_of(router.sessions.as_slice()));
    }
    lines.saturating_mul(LINE_BYTES)
}

/// The text of a configuration, in the second edition. It spells this configuration, and no text spells two.
pub fn print_config(alloc: Global, config: &Config) -> Result<Vec<u8>, NoMemory>
    ensures text { IfOk result (λ v. v.items ≡ config_text config.now) }
    ensures spells { IfOk result (λ v. Spells v.items config.now) }
{
    let mut text = Vec::with_capacity(alloc, room_for(config.routers()))?;
    push_bytes(&mut text, Edition::Second.first_line())?;
    push_bytes(&mut text, b"\n")?;
    push_classes(&mut text, config.classes())?;
    push_routers(&mut text, config.routers())?;
    Ok(text)
}
