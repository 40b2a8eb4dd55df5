//! What a state holds but its term and version, as bytes: of the size of what it holds, and not of its room. Each state has such bytes,
//! within the limits or not, and no two have the same.
ghost use Rattle.std.specs.Prelude.{◌≡◌, ◌++◌, OnOk, IfOk, map};
ghost use Rattle.std.specs.List.{flat_map};
ghost use Rattle.cluster_state.specs.Settings.{setting_of};
ghost use Rattle.trace_audit.specs.Contents.{number_bytes, text_bytes, setting_bytes, settings_bytes, parent_bytes, contents_bytes};

use cluster_state::{ClusterState, Settings, StateId, write_id_list, write_optional_id};
use std::alloc::{AllocError, Global};
use std::collections::BTreeMap;

// Seven bits a byte, the lowest first, and 128 more in each byte but the last.
fn write_number(out: &mut Vec<u8>, number: u64) -> Result<(), AllocError>
    ensures { OnOk result (out.new.items ≡ out.old.items ++ number_bytes number) }
{
    let mut left = number;
    while left >= 128 {
        out.push((left % 128) as u8 + 128)?;
        left /= 128;
    }
    Ok(out.push(left as u8)?)
}

fn write_text(out: &mut Vec<u8>, text: &str) -> Result<(), AllocError>
    ensures { OnOk result (out.new.items ≡ out.old.items ++ text_bytes text.now) }
{
    write_number(out, text.len() as u64)?;
    out.extend_from_slice(text.as_bytes())
}

fn write_entries(out: &mut Vec<u8>, entries: &BTreeMap<String, String>) -> Result<(), AllocError>
    ensures { OnOk result (out.new.items ≡ out.old.items ++ flat_map setting_bytes (map setting_of entries.now.entries)) }
{
    for (key, value) in entries {
        write_text(out, key)?;
        write_text(out, value)?;
    }
    Ok(())
}

fn write_settings(out: &mut Vec<u8>, settings: &Settings) -> Result<(), AllocError>
    ensures { OnOk result (out.new.items ≡ out.old.items ++ settings_bytes settings.now) }
{
    write_number(out, settings.len() as u64)?;
    write_entries(out, settings.texts())
}

fn write_parent(out: &mut Vec<u8>, parent: Option<StateId>) -> Result<(), AllocError>
    ensures { OnOk result (out.new.items ≡ out.old.items ++ parent_bytes parent) }
{
    match parent {
        None => Ok(out.push(0)?),
        Some(parent) => {
            out.push(1)?;
            write_number(out, parent.term)?;
            write_number(out, parent.version)
        }
    }
}

fn write_contents(out: &mut Vec<u8>, state: &ClusterState) -> Result<(), AllocError>
    ensures { OnOk result (out.new.items ≡ out.old.items ++ contents_bytes state.now) }
{
    write_parent(out, state.parent)?;
    write_id_list(out, &state.config)?;
    write_id_list(out, &state.committed)?;
    write_optional_id(out, state.value.master)?;
    write_id_list(out, &state.value.members)?;
    write_id_list(out, &state.value.exclusions)?;
    write_settings(out, &state.value.settings)
}

/// What the state holds but its term and version, in memory of just its length.
pub fn contents(alloc: Global, state: &ClusterState) -> Result<Vec<u8>, AllocError>
    ensures { IfOk result (λ bytes. bytes.items ≡ contents_bytes state.now) }
{
    let mut bytes = Vec::new(alloc);
    write_contents(&mut bytes, state)?;
    bytes.shrink_to_fit();
    Ok(bytes)
}
