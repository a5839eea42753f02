//! The laws of the libraries: calls that do nothing and whose contracts say what holds.

use anyhow::{Result, bail};

fn call_reading(name: &str) -> bool {
    match name {
        "java_lexer one_reading" => java_lexer::one_reading(),
        "java_lexer tokens_follow" => java_lexer::tokens_follow(),
        "java_lexer tokens_spelled" => java_lexer::tokens_spelled(),
        "java_expressions one_expression" => java_expressions::one_expression(),
        "java_statements one_block" => java_statements::one_block(),
        "java_heads one_part" => java_heads::one_part(),
        "java_members one_member" => java_members::one_member(),
        _ => return false,
    }
    true
}

fn call_whole(name: &str) -> bool {
    match name {
        "java_reader one_tree" => java_reader::one_tree(),
        "java_reader one_spelling" => java_reader::one_spelling(),
        "java_reader parts_follow" => java_reader::parts_follow(),
        "promise_grammar one_tree" => promise_grammar::one_tree(),
        "bundle one_bundle" => bundle::one_bundle(),
        "bundle one_fault" => bundle::one_fault(),
        _ => return false,
    }
    true
}

fn call_surfaces(name: &str) -> bool {
    match name {
        "region_scrub one_clearing" => region_scrub::one_clearing(),
        "class_faces names_stay" => class_faces::names_stay(),
        "header_scrub regions_stand" => header_scrub::regions_stand(),
        "header_scrub lock_fields_fit" => header_scrub::lock_fields_fit(),
        "header_scrub lock_regions_apart" => header_scrub::lock_regions_apart(),
        "promise_scrub one_surface" => promise_scrub::one_surface(),
        "promise_scrub surfaces_alike" => promise_scrub::surfaces_alike(),
        "promise_scrub standing_keys_differ" => promise_scrub::standing_keys_differ(),
        "promise_scrub set_aside_is_listed" => promise_scrub::set_aside_is_listed(),
        "promise_scrub listed_is_set_aside" => promise_scrub::listed_is_set_aside(),
        _ => return false,
    }
    true
}

/// That the law of the line, by its crate and its name, can be called.
pub(crate) fn put_case(out: &mut String, line: &str) -> Result<()> {
    if call_reading(line) || call_whole(line) || call_surfaces(line) {
        out.push_str("holds")?;
        return Ok(());
    }
    bail!("no law {line}")
}
