//! What crosses to C, field by field as in `bindings/c/jichurpa.h`.

/// A name: its bytes, and zeros behind them.
#[repr(C)]
#[derive(Clone, Copy)]
pub struct CName {
    pub bytes: [u8; 16],
}

/// A thing of a context.
#[repr(C)]
#[derive(Clone, Copy)]
pub struct CObject {
    pub context: CName,
    pub name: CName,
}

/// An IPv4 address and a UDP port.
#[repr(C)]
#[derive(Clone, Copy)]
pub struct CAddress {
    pub ip: u32,
    pub port: u16,
    pub reserved: u16,
}

/// What a step answered.
#[repr(C)]
#[derive(Clone, Copy)]
pub struct COutcome {
    pub answer: u32,
    pub cause: u32,
    pub detail: u32,
    pub number: u32,
    pub local_key: u32,
    pub remote_key: u32,
    pub count: u64,
    pub sent: u64,
}

/// A datagram that is to be sent.
#[repr(C)]
#[derive(Clone, Copy)]
pub struct CDatagram {
    pub to: CAddress,
    pub number: u64,
    pub length: u64,
    pub has_number: u32,
    pub reserved: u32,
}

/// The domain, the completion queues and the depths of a new queue pair.
#[repr(C)]
#[derive(Clone, Copy)]
pub struct CQpOptions {
    pub domain: CName,
    pub send_cq: CName,
    pub recv_cq: CName,
    pub send_depth: u32,
    pub recv_depth: u32,
}

/// What both ends of a connection agree on.
#[repr(C)]
#[derive(Clone, Copy)]
pub struct CTerms {
    pub mtu: u32,
    pub own_start: u32,
    pub peer_start: u32,
    pub retry: u8,
    pub rnr: u8,
    pub reads: u8,
    pub reserved: u8,
}

/// A work request of the send queue.
#[repr(C)]
#[derive(Clone, Copy)]
pub struct CRequest {
    pub id: u64,
    pub local: u64,
    pub remote: u64,
    pub swap_add: u64,
    pub compare: u64,
    pub kind: u32,
    pub length: u32,
    pub local_key: u32,
    pub remote_key: u32,
    pub imm: u32,
    pub flags: u32,
}

/// A work request of the receive queue.
#[repr(C)]
#[derive(Clone, Copy)]
pub struct CReceive {
    pub id: u64,
    pub local: u64,
    pub local_key: u32,
    pub length: u32,
}

/// A work completion.
#[repr(C)]
#[derive(Clone, Copy)]
pub struct CCompletion {
    pub id: u64,
    pub qp: u32,
    pub kind: u32,
    pub status: u32,
    pub length: u32,
    pub imm: u32,
    pub flags: u32,
}

/// What is told of a queue pair.
#[repr(C)]
#[derive(Clone, Copy)]
pub struct CEnd {
    pub name: CObject,
    pub una: u64,
    pub next: u64,
    pub last: u64,
    pub number: u32,
    pub peer: u32,
    pub state: u32,
    pub untold: u32,
    pub moves: u32,
    pub rnr: u32,
    pub rnr_wait: u32,
    pub may_send: u32,
    pub in_flight: u32,
    pub reserved: u32,
}

/// Why bytes are no dump, and where.
#[repr(C)]
#[derive(Clone, Copy)]
pub struct CFault {
    pub place: u64,
    pub why: u32,
    pub reserved: u32,
}
