//! What a connection is greeted with.
ghost use Rattle.std.specs.Prelude.{◌≡◌, OnOk, codes};
ghost use Rattle.base64.specs.Engines.{standard};
ghost use Rattle.base64.specs.GeneralPurpose.{encode_of};
ghost use Rattle.mix_base.specs.declared.json.Json as json;
ghost use Rattle.mix_json.specs.Growing.{more_field, more_fields};
ghost use Rattle.mix_json.specs.Trees.{obj_of};
ghost use Rattle.mix_events.specs.Texts.{authentication, hello_fields, identified_fields};
ghost use Rattle.mix_events.specs.Texts.{login_fields};

use crate::Login;
use base64::engine::general_purpose::STANDARD;
use mix_base::{Bytes32, NoMemory};
use mix_json::JsonText;
use std::alloc::Global;

/// With bytes in base64 (RFC 4648).
fn with_bytes(alloc: Global, out: &mut JsonText, key: &str, bytes: &Bytes32) -> Result<(), NoMemory>
    ensures value { OnOk result
        (out.new ≡ more_field key.now (json.Text (encode_of standard bytes.now)) out.old) }
{
    let encoded = STANDARD.encode(alloc, bytes.0.as_slice())?;
    let done = out.text(key, encoded.as_str());
    drop(encoded);
    done
}

#[tactic(auto, unfolding(crate::specs::Texts::login_fields))]
fn with_each(alloc: Global, out: &mut JsonText, login: &Login) -> Result<(), NoMemory>
    ensures value { OnOk result (out.new ≡ more_fields (login_fields login.now) out.old) }
{
    with_bytes(alloc, out, "challenge", &login.challenge)?;
    with_bytes(alloc, out, "salt", &login.salt)
}

fn with_login(alloc: Global, out: &mut JsonText, login: &Login) -> Result<(), NoMemory>
    ensures value { OnOk result (out.new ≡ more_field (codes "authentication")
        (json.Obj (obj_of (login_fields login.now))) out.old) }
{
    out.key("authentication")?;
    out.open()?;
    with_each(alloc, out, login)?;
    out.close()
}

/// With what is needed to log in, where there is a secret.
fn with_secret(alloc: Global, out: &mut JsonText, login: &Option<Login>) -> Result<(), NoMemory>
    ensures value { OnOk result (out.new ≡ more_fields (authentication login.now) out.old) }
{
    match login {
        Some(login) => with_login(alloc, out, login),
        None => Ok(()),
    }
}

pub fn hello(alloc: Global, out: &mut JsonText, login: &Option<Login>) -> Result<(), NoMemory>
    ensures value { OnOk result (out.new ≡ more_fields (hello_fields login.now) out.old) }
{
    with_secret(alloc, out, login)?;
    out.text("obsWebSocketVersion", "5.0.0")?;
    out.int("rpcVersion", 1)
}

#[tactic(auto, unfolding(crate::specs::Texts::identified_fields))]
pub fn identified(out: &mut JsonText) -> Result<(), NoMemory>
    ensures value { OnOk result (out.new ≡ more_fields identified_fields out.old) }
{
    out.int("negotiatedRpcVersion", 1)
}
