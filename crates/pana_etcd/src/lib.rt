//! A log of records that etcd keeps: each record under a key of its own, written once, and only where it is the next one.
#![tactic(auto)]

mod address;
mod address_fault;
mod answer;
mod base64_text;
mod connect;
mod etcd_log;
mod exchange;
mod key;
mod login;
mod member;
mod request;
mod text_fault;
mod value;
mod writer;

pub use crate::address::EtcdAddress;
pub use crate::address_fault::AddressFault;
pub use crate::connect::{Connect, TcpConnect};
pub use crate::etcd_log::EtcdLog;
pub use crate::login::Login;
pub use crate::member::Member;
pub use crate::text_fault::TextFault;
pub use crate::value::{decode_value, encode_value};
pub use crate::writer::random_writer;
