//! Runs of the machine, with the answers of worked examples.

use packetless_machine::{IdealFault, MachineStep, PacketlessMachine};
use rdma_types::{
    Answer, Completion, Items, Kind, Name, ObjName, Receive, Refusal, RefusalReason, Request,
    Rights, Shape, Terms, Verb, WcKind, WcStatus,
};
use std::alloc::Global;
use std::process::Abort;
use std::test::Fail;

const LOCAL_A: u32 = 0x01000002;

const LOCAL_B: u32 = 0x02000002;

const REMOTE_B: u32 = 0x02000003;

const NUMBER_A: u32 = 0x010001;

const NUMBER_B: u32 = 0x020001;

/// The names of the two contexts and of the things in them.
#[derive(Clone, Copy)]
struct Names {
    a: Name,
    b: Name,
    domain: Name,
    region: Name,
    queue: Name,
    end: Name,
}

fn name(rt: &impl Abort, text: &[u8]) -> Name {
    Name::read(text).expect(rt, "a name")
}

fn read_names(rt: &impl Abort) -> Names {
    Names {
        a: name(rt, b"a"),
        b: name(rt, b"b"),
        domain: name(rt, b"p"),
        region: name(rt, b"m"),
        queue: name(rt, b"c"),
        end: name(rt, b"q"),
    }
}

fn at(context: Name, name: Name) -> ObjName {
    ObjName { context, name }
}

fn asks(verb: Verb, given: u32) -> MachineStep {
    MachineStep::Verb { verb, given }
}

/// A machine that makes steps one after another, and the first one that was not answered as wanted.
#[derive(Drop)]
struct Trial {
    ideal: PacketlessMachine,
    alloc: Global,
    made: u32,
    first_wrong: Option<u32>,
}

impl Trial {
    /// Counts a step, and keeps its number where it is the first that was not answered as wanted.
    fn note(&mut self, as_wanted: bool) {
        if !as_wanted && self.first_wrong.is_none() {
            self.first_wrong = Some(self.made);
        }
        self.made = self.made.saturating_add(1);
    }

    /// Makes a step, whatever its answer.
    fn makes(&mut self, step: &MachineStep) {
        let answer = self.ideal.step(self.alloc, step);
        self.note(answer.is_ok());
    }

    /// Makes a step that answers `Done`.
    fn done(&mut self, step: &MachineStep) {
        let answer = self.ideal.step(self.alloc, step);
        self.note(matches!(&answer, Ok(Answer::Done)));
    }

    /// The step is not enabled.
    fn is_off(&mut self, step: &MachineStep) {
        let answer = self.ideal.step(self.alloc, step);
        self.note(matches!(&answer, Err(IdealFault::NotEnabled)));
    }

    /// The verb of a step is refused, since something is in use.
    fn is_in_use(&mut self, step: &MachineStep) {
        let answer = self.ideal.step(self.alloc, step);
        self.note(matches!(&answer, Ok(Answer::Refused(Refusal::InUse))));
    }

    /// A poll of a queue answers these completions.
    fn polls(&mut self, cq: &ObjName, wanted: &[Completion]) {
        let poll = Verb::Poll { cq: *cq, max: 4 };
        let answer = self.ideal.step(self.alloc, &asks(poll, 0));
        let same = match &answer {
            Ok(Answer::Polled(entries)) => entries.as_slice() == wanted,
            _ => false,
        };
        self.note(same);
    }

    /// A load of four bytes of a region answers these.
    fn loads(&mut self, region: &ObjName, at: u64, wanted: &[u8]) {
        let verb = Verb::Load {
            region: *region,
            at,
            length: 4,
        };
        let answer = self.ideal.step(self.alloc, &asks(verb, 0));
        let same = match &answer {
            Ok(Answer::Bytes(bytes)) => bytes.as_slice() == wanted,
            _ => false,
        };
        self.note(same);
    }

    /// Makes a context with a domain, a region, a queue and an end.
    fn make_side(&mut self, n: &Names, context: Name, base: u64, key: u32, number: u32) {
        let made = Verb::Context {
            name: context,
            made: true,
        };
        self.done(&asks(made, 0));
        let domain = Verb::MakeDomain {
            name: at(context, n.domain),
        };
        self.done(&asks(domain, 0));
        let region = Verb::MakeRegion {
            name: at(context, n.region),
            domain: Some(n.domain),
            base,
            length: 64,
            rights: Rights(15),
        };
        self.makes(&asks(region, key));
        let queue = Verb::MakeCq {
            name: at(context, n.queue),
            capacity: 16,
        };
        self.done(&asks(queue, 0));
        let end = Verb::MakeQp {
            name: at(context, n.end),
            domain: Some(n.domain),
            send_cq: Some(n.queue),
            recv_cq: Some(n.queue),
            send_depth: 8,
            recv_depth: 8,
        };
        self.makes(&asks(end, number));
    }
}

/// Two contexts whose ends are connected.
fn opened(alloc: Global, n: &Names) -> Trial {
    let mut run = Trial {
        ideal: PacketlessMachine::make(alloc),
        alloc,
        made: 0,
        first_wrong: None,
    };
    run.make_side(n, n.a, 4096, LOCAL_A, NUMBER_A);
    run.make_side(n, n.b, 8192, LOCAL_B, NUMBER_B);
    let connect = Verb::Connect {
        one: at(n.a, n.end),
        two: at(n.b, n.end),
        terms: Terms {
            mtu: 256,
            own_start: 100,
            peer_start: 200,
            retry: 7,
            rnr: 7,
            reads: 4,
        },
    };
    run.done(&asks(connect, 0));
    run
}

/// Posts a request of this shape at an end of the first context.
fn post(end: ObjName, id: u64, shape: Shape) -> MachineStep {
    let request = Request {
        id,
        shape,
        lkey: LOCAL_A,
        local: 4096,
        signaled: true,
        fence: false,
    };
    asks(Verb::PostSend { end, request }, 0)
}

fn shape(kind: Kind, length: u32, remote: u64, rkey: u32, swap_add: u64) -> Shape {
    Shape {
        kind,
        length,
        remote,
        rkey,
        imm: None,
        swap_add,
        compare: 0,
    }
}

fn completion(qp: u32, id: u64, kind: WcKind, status: WcStatus, length: u32) -> Completion {
    Completion {
        qp,
        id,
        kind,
        status,
        length,
        imm: None,
    }
}

#[test]
fn one_write_completed(rt: HostRuntime) -> Result<(), Fail> {
    let bytes = [0xde, 0xad, 0xbe, 0xef].to_vec(rt.alloc())?;
    let names = read_names(&rt);
    let n = &names;
    let owner = at(n.a, n.end);
    let q = &owner;
    let mut run = opened(rt.alloc(), n);
    let store = Verb::Store {
        region: at(n.a, n.region),
        at: 4096,
        bytes: Items::new(bytes),
    };
    let store = asks(store, 0);
    let write = post(*q, 1, shape(Kind::Write, 4, 8192, REMOTE_B, 0));
    let arrive = MachineStep::Run { q: *q, n: 4 };
    let tell = MachineStep::Tell { q: *q };
    let told = [completion(NUMBER_A, 1, WcKind::Write, WcStatus::Success, 4)];
    let completions = at(n.a, n.queue);
    let there = at(n.b, n.region);
    run.done(&store);
    run.done(&write);
    run.is_off(&tell);
    run.done(&arrive);
    run.done(&tell);
    run.polls(&completions, &told);
    run.polls(&completions, &[]);
    run.loads(&there, 8192, &[0xde, 0xad, 0xbe, 0xef]);
    assert_eq!(&rt; run.first_wrong, None);
    Ok(())
}

#[test]
fn an_atomic_and_a_read(rt: HostRuntime) {
    let names = read_names(&rt);
    let n = &names;
    let owner = at(n.a, n.end);
    let q = &owner;
    let mut run = opened(rt.alloc(), n);
    let add = post(*q, 1, shape(Kind::FetchAdd, 8, 8192, REMOTE_B, 5));
    let act = MachineStep::Atom { q: *q };
    let tell = MachineStep::Tell { q: *q };
    let read = post(*q, 2, shape(Kind::Read, 4, 8196, REMOTE_B, 0));
    let turn = MachineStep::ReadTurn { q: *q };
    let offer = MachineStep::Offer {
        q: *q,
        i: 1,
        off: 0,
        n: 4,
    };
    let land = MachineStep::Land { q: *q, o: 0 };
    let told = [
        completion(NUMBER_A, 1, WcKind::FetchAdd, WcStatus::Success, 8),
        completion(NUMBER_A, 2, WcKind::Read, WcStatus::Success, 4),
    ];
    let completions = at(n.a, n.queue);
    let here = at(n.a, n.region);
    run.done(&add);
    run.done(&act);
    run.is_off(&act);
    run.done(&tell);
    run.done(&read);
    run.done(&turn);
    run.done(&offer);
    run.done(&land);
    run.done(&tell);
    run.loads(&here, 4096, &[0, 0, 0, 5]);
    run.polls(&completions, &told);
    assert_eq!(&rt; run.first_wrong, None);
}

#[test]
fn a_send_too_long_and_a_flush(rt: HostRuntime) {
    let names = read_names(&rt);
    let n = &names;
    let owner = at(n.a, n.end);
    let q = &owner;
    let mut run = opened(rt.alloc(), n);
    let receive = Verb::PostRecv {
        end: at(n.b, n.end),
        receive: Receive {
            id: 9,
            lkey: LOCAL_B,
            local: 8192,
            length: 2,
        },
    };
    let receive = asks(receive, 0);
    let name = at(n.b, n.region);
    let take_away = asks(Verb::DropRegion { name }, 0);
    let first = post(*q, 3, shape(Kind::Send, 4, 0, 0, 0));
    let second = post(*q, 4, shape(Kind::Send, 4, 0, 0, 0));
    let why = RefusalReason::Length;
    let refuse = MachineStep::Refuse { q: *q, why };
    let bounce = MachineStep::Bounce { q: *q };
    let there = [completion(NUMBER_B, 9, WcKind::Recv, WcStatus::LocalLength, 0)];
    let here = [
        completion(NUMBER_A, 3, WcKind::Send, WcStatus::RemoteInvalid, 0),
        completion(NUMBER_A, 4, WcKind::Send, WcStatus::Flush, 0),
    ];
    let queue_there = at(n.b, n.queue);
    let queue_here = at(n.a, n.queue);
    run.done(&receive);
    run.is_in_use(&take_away);
    run.done(&first);
    run.done(&second);
    run.done(&refuse);
    run.done(&bounce);
    run.polls(&queue_there, &there);
    run.polls(&queue_here, &here);
    assert_eq!(&rt; run.first_wrong, None);
}
