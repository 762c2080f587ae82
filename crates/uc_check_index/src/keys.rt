// Names and signatures as bytes.

ghost use Rattle.std.specs.Prelude.{◌≡◌, ◌++◌, ◌∷◌, [], IfOk, OnOk};
ghost use Rattle.uc_check_index.specs.Keys.{base_key, flag_byte, kind_byte, kind_key, member_key, member_sig_key, name_key, params_key, role_byte, role_key, sig_key};

use std::alloc::{AllocError, Global};
use uc_tree::class::Sig;
use uc_tree::kinds::{Base, Kind, Param, Role};
use uc_tree::name::Name;

fn push_name(key: &mut Vec<u8>, name: &Name) -> Result<(), AllocError>
    ensures { OnOk result (key.new.items ≡ key.old.items ++ name_key name.now) }
{
    push_name_bytes(key, name.bytes())
}

fn push_name_bytes(key: &mut Vec<u8>, bytes: &[u8]) -> Result<(), AllocError>
    ensures { OnOk result (key.new.items ≡ key.old.items ++ name_key bytes.now) }
{
    for byte in bytes {
        key.push(1)?;
        key.push(*byte)?;
    }
    key.push(0)?;
    Ok(())
}

fn push_byte(key: &mut Vec<u8>, byte: u8) -> Result<(), AllocError>
    ensures { OnOk result (key.new.items ≡ key.old.items ++ byte ∷ []) }
{
    key.push(byte)?;
    Ok(())
}

fn push_base(key: &mut Vec<u8>, base: &Base) -> Result<(), AllocError>
    ensures { OnOk result (key.new.items ≡ key.old.items ++ base_key base.now) }
{
    match base {
        Base::Void => push_byte(key, 0),
        Base::Int => push_byte(key, 1),
        Base::Char => push_byte(key, 2),
        Base::Bool => push_byte(key, 3),
        Base::Condition => push_byte(key, 4),
        Base::Cluster => push_byte(key, 5),
        Base::Processor => push_byte(key, 6),
        Base::Named(name) => {
            key.push(7)?;
            push_name(key, name)
        }
    }
}

fn flag_byte(flag: bool) -> u8
    ensures { result ≡ flag_byte flag }
{
    if flag { 1 } else { 0 }
}

fn role_byte(role: Role) -> u8
    ensures { result ≡ role_byte role }
{
    match role {
        Role::Plain => 0,
        Role::Constructor => 1,
        Role::Destructor => 2,
    }
}

fn kind_byte(kind: Kind) -> u8
    ensures { result ≡ kind_byte kind }
{
    match kind {
        Kind::Class => 0,
        Kind::Coroutine => 1,
        Kind::Monitor => 2,
        Kind::Cormonitor => 3,
        Kind::Task => 4,
        Kind::Event => 5,
    }
}

fn push_params(key: &mut Vec<u8>, params: &[Param]) -> Result<(), AllocError>
    ensures { OnOk result (key.new.items ≡ key.old.items ++ params_key params.now) }
{
    for param in params {
        key.push(1)?;
        key.push(flag_byte(param.by_ref))?;
        push_base(key, &param.base)?;
    }
    key.push(0)?;
    Ok(())
}

fn push_sig(key: &mut Vec<u8>, sig: &Sig) -> Result<(), AllocError>
    ensures { OnOk result (key.new.items ≡ key.old.items ++ sig_key sig.now) }
{
    key.push(role_byte(sig.role))?;
    push_name(key, &sig.name)?;
    push_base(key, &sig.ret)?;
    push_params(key, &sig.params)
}

fn push_bytes(key: &mut Vec<u8>, bytes: &[u8]) -> Result<(), AllocError>
    ensures { OnOk result (key.new.items ≡ key.old.items ++ bytes.now) }
{
    key.extend_from_slice(bytes)?;
    Ok(())
}

fn push_role(key: &mut Vec<u8>, sig: &Sig) -> Result<(), AllocError>
    ensures { OnOk result (key.new.items ≡ key.old.items ++ role_key sig.now) }
{
    key.push(role_byte(sig.role))?;
    push_bytes(key, sig.name.bytes())
}

/// The key of a signature.
pub fn sig_key(alloc: Global, sig: &Sig) -> Result<Vec<u8>, AllocError>
    ensures { IfOk result (λ key. key.items ≡ sig_key sig.now) }
{
    let mut key = Vec::new(alloc);
    push_sig(&mut key, sig)?;
    Ok(key)
}

/// The key of a role and name.
pub fn role_key(alloc: Global, sig: &Sig) -> Result<Vec<u8>, AllocError>
    ensures { IfOk result (λ key. key.items ≡ role_key sig.now) }
{
    let mut key = Vec::new(alloc);
    push_role(&mut key, sig)?;
    Ok(key)
}

/// The key of a class, a role and a name.
pub fn member_key(alloc: Global, class: &Name, sig: &Sig) -> Result<Vec<u8>, AllocError>
    ensures { IfOk result (λ key. key.items ≡ member_key class.now sig.now) }
{
    let mut key = Vec::new(alloc);
    push_name(&mut key, class)?;
    push_role(&mut key, sig)?;
    Ok(key)
}

/// The key of a class and a signature.
pub fn member_sig_key(alloc: Global, class: &Name, sig: &Sig) -> Result<Vec<u8>, AllocError>
    ensures { IfOk result (λ key. key.items ≡ member_sig_key class.now sig.now) }
{
    let mut key = Vec::new(alloc);
    push_name(&mut key, class)?;
    push_sig(&mut key, sig)?;
    Ok(key)
}

/// The key of a kind and a name.
pub fn kind_key(alloc: Global, kind: Kind, name: &Name) -> Result<Vec<u8>, AllocError>
    ensures { IfOk result (λ key. key.items ≡ kind_key kind name.now) }
{
    let mut key = Vec::new(alloc);
    key.push(kind_byte(kind))?;
    push_bytes(&mut key, name.bytes())?;
    Ok(key)
}
