//! Addresses of logs.
ghost use Rattle.std.specs.Prelude.{◌≡◌, ◌++◌, IfOk, IsTrue, OnOk, string_bytes};
ghost use Rattle.std.specs.List.{list_all};
ghost use Rattle.pana_etcd.specs.Address.{IsAddress, address_text, are_hosts, have_names, is_login, is_name, is_password, is_plain, is_secret, later_members, login_text, members_text};

use crate::address_fault::AddressFault;
use crate::login::Login;
use crate::member::{Member, member_text};
use std::alloc::{AllocError, Global};

/// How an address begins.
const SCHEME: &str = "etcd://";

/// How many members a cluster has at most.
const MOST_MEMBERS: usize = 9;

/// How long a name of a log, or of a host, is at most.
const LONGEST_NAME: usize = 100;

/// Where a log is kept: who logs in there, the members of a cluster, and the log's name.
#[derive(Drop)]
pub struct EtcdAddress {
    pub login: Option<Login>,
    pub members: Vec<Member>,
    pub name: String,
}

impl EtcdAddress {
    /// The address that is written as `etcd://[USER:PASSWORD@]HOST:PORT[,HOST:PORT..]/NAME`: who logs in, if anybody does; one to nine
    /// members, each a host's name or IPv4 address and a port; and the log's name. Names are of 1 to 100 letters, digits, `-`, `_` and
    /// `.`. It takes memory for the address, and for its text, by which it is checked.
    ///
    /// # Errors
    ///
    /// `BadMember` also where the port has a zero before its digits.
    pub fn parse(alloc: Global, text: &str) -> Result<EtcdAddress, AddressFault>
        ensures { IfOk result (λ address. IsAddress address text.now) }
    {
        let address = address_in(alloc, text)?;
        match check(alloc, &address, text) {
            Ok(()) => Ok(address),
            Err(fault) => {
                drop(address);
                Err(fault)
            }
        }
    }
}

/// Sees that the text is the address's, and its names are such as they may be.
fn check(alloc: Global, address: &EtcdAddress, text: &str) -> Result<(), AddressFault>
    ensures { OnOk result (IsAddress address.now text.now) }
{
    if !has_names(address) {
        return Err(AddressFault::BadName);
    }
    if !is_login(&address.login) {
        return Err(AddressFault::BadLogin);
    }
    match address_text(alloc, address) {
        Ok(written) if written.as_str() == text => Ok(()),
        Ok(_) => Err(AddressFault::BadMember { number: 1 }),
        Err(_) => Err(AddressFault::OutOfMemory),
    }
}

/// What the text may be the address of; `parse` finds what it says beside.
fn address_in(alloc: Global, text: &str) -> Result<EtcdAddress, AddressFault> {
    let Some(rest) = text.strip_prefix(SCHEME) else {
        return Err(AddressFault::NotEtcd);
    };
    let Some((list, name)) = rest.split_once('/') else {
        return Err(AddressFault::BadName);
    };
    let (login, list) = login_in(alloc, list)?;
    match log_of(alloc, list, name) {
        Ok((members, name)) => Ok(EtcdAddress {
            login,
            members,
            name,
        }),
        Err(fault) => {
            drop(login);
            Err(fault)
        }
    }
}

/// The members, and the log's name.
fn log_of(alloc: Global, list: &str, name: &str) -> Result<(Vec<Member>, String), AddressFault> {
    let members = members_in(alloc, list)?;
    match owned(alloc, name) {
        Ok(name) => Ok((members, name)),
        Err(fault) => {
            drop(members);
            Err(fault)
        }
    }
}

/// Who logs in, and what stands behind that.
fn login_in(alloc: Global, list: &str) -> Result<(Option<Login>, &str), AddressFault> {
    let Some((before, behind)) = list.split_once('@') else {
        return Ok((None, list));
    };
    let Some((user, password)) = before.split_once(':') else {
        return Err(AddressFault::BadLogin);
    };
    let login = Login {
        user: owned(alloc, user)?,
        password: owned(alloc, password)?,
    };
    Ok((Some(login), behind))
}

fn members_in(alloc: Global, list: &str) -> Result<Vec<Member>, AddressFault> {
    let mut members = Vec::new(alloc);
    match add_members(alloc, &mut members, list) {
        Ok(()) => Ok(members),
        Err(fault) => {
            drop(members);
            Err(fault)
        }
    }
}

fn add_members(alloc: Global, members: &mut Vec<Member>, list: &str) -> Result<(), AddressFault> {
    for word in list.split(',') {
        if members.len() >= MOST_MEMBERS {
            return Err(AddressFault::TooManyMembers);
        }
        let number = members.len() as u64 + 1;
        let member = member_in(alloc, word, number)?;
        if members.push(member).is_err() {
            return Err(AddressFault::OutOfMemory);
        }
    }
    Ok(())
}

fn member_in(alloc: Global, word: &str, number: u64) -> Result<Member, AddressFault> {
    let Some((host, port)) = word.split_once(':') else {
        return Err(AddressFault::BadMember { number });
    };
    let Ok(value) = port.parse::<u16>() else {
        return Err(AddressFault::BadMember { number });
    };
    if !is_name(host) || port.starts_with('0') || port.starts_with('+') {
        return Err(AddressFault::BadMember { number });
    }
    Ok(Member {
        host: owned(alloc, host)?,
        port: value,
    })
}

fn owned(alloc: Global, text: &str) -> Result<String, AddressFault> {
    match String::from_str(alloc, text) {
        Ok(text) => Ok(text),
        Err(_) => Err(AddressFault::OutOfMemory),
    }
}

/// Whether the log has a name, and each member a host.
fn has_names(address: &EtcdAddress) -> bool
    ensures { IsTrue result → IsTrue (is_name (string_bytes address.now.name)) × IsTrue (are_hosts address.now.members.items) }
{
    is_name(address.name.as_str()) && are_hosts(address.members.as_slice())
}

fn are_hosts(members: &[Member]) -> bool
    ensures { result ≡ are_hosts members.now }
{
    !members.is_empty() && members.len() <= MOST_MEMBERS && have_names(members)
}

fn have_names(members: &[Member]) -> bool
    ensures { result ≡ have_names members.now }
{
    members.iter().all(|member| is_name(member.host.as_str()))
}

fn is_name(text: &str) -> bool
    ensures { result ≡ is_name text.now }
{
    !text.is_empty() && text.len() <= LONGEST_NAME && is_plain(text.as_bytes())
}

/// Whether who logs in has a name and a password, if anybody does.
fn is_login(login: &Option<Login>) -> bool
    ensures { result ≡ is_login login.now }
{
    match login {
        Some(login) => is_name(login.user.as_str()) && is_password(login.password.as_str()),
        None => true,
    }
}

fn is_password(text: &str) -> bool
    ensures { result ≡ is_password text.now }
{
    !text.is_empty() && text.len() <= LONGEST_NAME && is_secret(text.as_bytes())
}

fn is_secret(text: &[u8]) -> bool
    ensures { result ≡ list_all is_secret text.now }
{
    text.iter().all(|byte| is_secret_byte(*byte))
}

fn is_secret_byte(byte: u8) -> bool
    ensures { result ≡ is_secret byte }
{
    matches!(byte, 33..=126) && !matches!(byte, b'"' | b'/' | b'@' | b'\\')
}

fn is_plain(text: &[u8]) -> bool
    ensures { result ≡ list_all is_plain text.now }
{
    text.iter().all(|byte| is_plain_byte(*byte))
}

fn is_plain_byte(byte: u8) -> bool
    ensures { result ≡ is_plain byte }
{
    matches!(byte, b'a'..=b'z' | b'A'..=b'Z' | b'0'..=b'9' | b'-' | b'_' | b'.')
}

/// The text of an address. Fails only where memory runs out.
fn address_text(alloc: Global, address: &EtcdAddress) -> Result<String, AllocError>
    ensures { IfOk result (λ text. string_bytes text ≡ address_text address.now) }
{
    let login = login_text(alloc, &address.login)?;
    let members = members_text(alloc, address.members.as_slice())?;
    let login = login.as_str();
    let members = members.as_str();
    let name = address.name.as_str();
    format!(in alloc; "etcd://{login}{members}/{name}")
}

fn login_text(alloc: Global, login: &Option<Login>) -> Result<String, AllocError>
    ensures { IfOk result (λ text. string_bytes text ≡ login_text login.now) }
{
    let Some(login) = login else {
        return Ok(String::new(alloc));
    };
    let user = login.user.as_str();
    let password = login.password.as_str();
    format!(in alloc; "{user}:{password}@")
}

fn members_text(alloc: Global, members: &[Member]) -> Result<String, AllocError>
    ensures { IfOk result (λ text. string_bytes text ≡ members_text members.now) }
{
    let [first, later @ ..] = members else {
        return Ok(String::new(alloc));
    };
    let mut text = member_text(alloc, first)?;
    push_members(alloc, &mut text, later)?;
    Ok(text)
}

/// Adds members that stand behind others.
fn push_members(alloc: Global, text: &mut String, members: &[Member]) -> Result<(), AllocError>
    ensures { OnOk result (string_bytes text.new ≡ string_bytes text.old ++ later_members members.now) }
{
    let [member, later @ ..] = members else {
        return Ok(());
    };
    let written = member_text(alloc, member)?;
    text.push(',')?;
    text.push_str(written.as_str())?;
    push_members(alloc, text, later)
}
