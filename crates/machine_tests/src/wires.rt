//! Worked examples of numbers, near lists and a route, and of the texts.
use arrayvec::ArrayVec;
use expect::{equal, equal_at};
use omega_net::{Component, Listed, Name, Net, Reply, Shape, Tag};
use page_map::Place;
use std::test::Fail;
use word_ops::{Kind, Op};

/// The near list of a component, by its number.
fn near(k: u32, number: u32) -> ArrayVec<u32, 5> {
    let Some(shape) = Shape::new(k) else {
        return ArrayVec::new();
    };
    match shape.component(number) {
        Some(component) => shape.near(component),
        None => ArrayVec::new(),
    }
}

#[test]
fn numbers_the_components_by_kind_network_and_stage(rt: HostRuntime) {
    let switch = |net: Net, stage: u8, index: u8| Component::Switch { net, stage, index };
    // k 1: processors 0 and 1, modules 2 and 3, one switch a network. k 2: stages of two switches.
    for (k, number, component) in [
        (0, 1, Component::Module(0)),
        (1, 1, Component::Proc(1)),
        (1, 2, Component::Module(0)),
        (1, 4, switch(Net::Low, 0, 0)),
        (1, 5, switch(Net::Comb, 0, 0)),
        (2, 11, switch(Net::Low, 1, 1)),
        (2, 13, switch(Net::Comb, 0, 1)),
    ] {
        let Some(shape) = Shape::new(k) else { continue };
        assert!(rt; equal_at(&rt, k, shape.number(component), Some(number)));
        assert!(rt; equal_at(&rt, k, shape.component(number), Some(component)));
    }
    assert!(rt; Shape::new(6).is_some());
    assert!(rt; Shape::new(7).is_none());
}

#[test]
fn lists_neighbours_by_input_then_by_output(rt: HostRuntime) {
    let cases: [(u32, &[u32]); 10] = [
        (0, &[0, 1]),
        (0, &[1, 0]),
        (1, &[1, 4, 5]),
        (1, &[2, 4, 5]),
        (1, &[4, 0, 1, 2, 3]),
        (1, &[5, 0, 1, 2, 3]),
        // At k 2 lines 1 and 3 meet the second switch of stage 0, whose outputs are lines 2 and 3,
        // which meet both switches of stage 1; line 2 behind those is the second one's output 0.
        (2, &[1, 9, 13]),
        (2, &[9, 1, 3, 10, 11]),
        (2, &[11, 8, 9, 6, 7]),
        (2, &[6, 11, 15]),
    ];
    for (k, list) in cases {
        let [number, ..] = list else { continue };
        assert!(rt; equal_at(&rt, k, near(k, *number).as_slice(), list));
    }
}

#[test]
fn leads_from_processor_1_to_module_2_and_back(rt: HostRuntime) {
    let Some(shape) = Shape::new(2) else { return };
    let switch = |stage: u8| Component::Switch {
        net: Net::Low,
        stage,
        index: 1,
    };
    // Lines in two bits: 01 meets switch 1 at input 0; 11 meets switch 1 at input 1; 10 is module 2.
    let first = shape.entry(Net::Low, 1);
    assert!(rt;
        equal(
            &rt,
            (shape.lower_end(first), shape.input(first)),
            (switch(0), 0)
        )
    );
    let second = shape.after(Net::Low, 0, 1, shape.forward_bit(0, 2));
    assert!(rt; equal(&rt, second.line, 3));
    assert!(rt;
        equal(
            &rt,
            (shape.lower_end(second), shape.input(second)),
            (switch(1), 1)
        )
    );
    let last = shape.after(Net::Low, 1, 1, shape.forward_bit(1, 2));
    assert!(rt; equal(&rt, shape.lower_end(last), Component::Module(2)));
    assert!(rt; equal(&rt, last, shape.exit(Net::Low, 2)));
    assert!(rt; equal(&rt, (last.upper_end(), last.output()), (switch(1), 0)));
    assert!(rt;
        equal(
            &rt,
            second,
            shape.before(Net::Low, 1, 1, shape.reverse_bit(1, 1))
        )
    );
    assert!(rt; equal(&rt, (second.upper_end(), second.output()), (switch(0), 1)));
    assert!(rt;
        equal(
            &rt,
            first,
            shape.before(Net::Low, 0, 1, shape.reverse_bit(0, 1))
        )
    );
    assert!(rt; equal(&rt, first.upper_end(), Component::Proc(1)));
}

#[test]
fn prints(rt: HostRuntime) -> Result<(), Fail> {
    let alloc = rt.alloc();
    let tag = Tag { proc: 3, issue: 17 };
    let reply = Reply { tag, word: 20 };
    assert!(rt;
        equal(
            &rt,
            format!(in alloc; "{tag} {reply}")?.as_str(),
            "3.17 3.17=20"
        )
    );
    let low = Component::Switch {
        net: Net::Low,
        stage: 1,
        index: 0,
    };
    let comb = Component::Switch {
        net: Net::Comb,
        stage: 0,
        index: 2,
    };
    let (proc, module) = (Component::Proc(0), Component::Module(31));
    assert!(rt;
        equal(
            &rt,
            format!(in alloc; "{proc} {module} {low} {comb}")?.as_str(),
            "p0 m31 l1.0 c0.2"
        )
    );
    let lists = (Listed::<Tag>(&[]), Listed(&[tag]), Listed(&[reply, reply]));
    let (none, one, two) = lists;
    assert!(rt;
        equal(
            &rt,
            format!(in alloc; "{none}{one}{two}")?.as_str(),
            "[][3.17][3.17=20,3.17=20]"
        )
    );
    Ok(())
}

#[test]
fn reads_names_and_finds_their_components(rt: HostRuntime) {
    let Some(shape) = Shape::new(1) else { return };
    let low = Name::Switch {
        net: Net::Low,
        stage: 1,
        index: 0,
    };
    let comb = Name::Switch {
        net: Net::Comb,
        stage: 0,
        index: 0,
    };
    let there = Component::Switch {
        net: Net::Comb,
        stage: 0,
        index: 0,
    };
    // A name that is read need not be a component's: at k 1 there is no p2, and no stage 1.
    let cases: [(&[u8], Name, Option<Component>); 6] = [
        (b"p1", Name::Proc(1), Some(Component::Proc(1))),
        (b"p2", Name::Proc(2), None),
        (b"m0000000001", Name::Module(1), Some(Component::Module(1))),
        (b"m4294967295", Name::Module(4_294_967_295), None),
        (b"l1.0", low, None),
        (b"c0.0", comb, Some(there)),
    ];
    for (word, name, component) in cases {
        assert!(rt; Name::read(word) == Some(name));
        assert!(rt; shape.named(name) == component);
    }
    let none: [&[u8]; 8] = [
        b"",
        b"p",
        b"q0",
        b"p-1",
        b"m4294967296",
        b"l1",
        b"l1.",
        b"c0.0.0",
    ];
    for word in none {
        assert!(rt; Name::read(word).is_none());
    }
}
