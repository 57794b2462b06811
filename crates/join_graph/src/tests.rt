ghost use Rattle.std.specs.Prelude.{◌<◌, ◌≤◌, length};

use super::*;

// The steps, a pattern by its place and a variable by 100 more than its number, and the size of the core.
const REMOVALS: [(&[u64], &[u16], u16); 6] = [
    (&[], &[], 0),
    (&[0, 0b1], &[0, 1, 100], 0),
    (&[0b11, 0b110], &[100, 0, 101, 1, 102], 0),
    (&[0b11, 0b11], &[], 4),
    (&[0b11, 0b11, 0b110], &[102, 2], 4),
    (&[0b11, 0b110, 0b101, 0b100_1000], &[103, 3, 106], 6),
];

fn code_of(step: Step) -> u16 {
    match step {
        Step::Pattern(place) => place,
        Step::Variable(variable) => 100 + u16::from(variable),
    }
}

#[test]
fn removes_leaves_in_order(rt: HostRuntime) {
    for (sets, steps, core) in REMOVALS {
        assert!(rt; sets.len() <= 256);
        let order = strip(sets);
        assert_eq!(rt; order.core(), core, "{sets:?}");
        assert_eq!(rt; order.len() as usize, steps.len(), "{sets:?}");
        for i in 0..order.len() {
            assert_eq!(rt; code_of(order.step(i)), steps[i as usize], "{sets:?}");
        }
    }
}

// Where node 1 begins, the sets of both nodes, and whether the tree is simple.
const TREES: [(u16, &[u64], bool); 9] = [
    // A root that is not connected, and one that is no forest.
    (2, &[0b1, 0b10], true),
    (2, &[0b11, 0b11], false),
    // A node that shares one variable with its parent, and one that shares two.
    (1, &[0b11, 0b110], true),
    (1, &[0b11, 0b111], false),
    // A node that is not connected, and one that is but for a pattern without variables.
    (0, &[0b1, 0b10], false),
    (0, &[0b11, 0, 0b110], true),
    // A node that is no forest, one without patterns, and one of ground patterns.
    (1, &[0b1, 0b110, 0b110], false),
    (1, &[0b1], true),
    (1, &[0b1, 0, 0], true),
];

fn one_node(sets: &[u64]) -> bool
    requires { length sets.now ≤ 256 }
{
    is_simple(&[0], &[sets.len() as u16], sets)
}

fn two_nodes(start: u16, sets: &[u64]) -> bool
    requires few { length sets.now ≤ 256 }
    requires start { start ≤ length sets.now }
{
    is_simple(&[0, 0], &[start, sets.len() as u16], sets)
}

#[test]
fn tells_simple_trees(rt: HostRuntime) {
    for (start, sets, simple) in TREES {
        assert!(rt; start as usize <= sets.len() && sets.len() <= 256);
        assert_eq!(rt; two_nodes(start, sets), simple, "{sets:?}");
    }
}

// How many of these patterns have the variable.
fn with_variable(sets: [u64; 4], patterns: u64, variable: u64) -> u32
    requires { variable < 64 }
{
    let mut found = 0u64;
    for place in 0..4usize {
        found |= ((patterns >> place) & (sets[place] >> variable) & 1) << place;
    }
    found.count_ones()
}

// Whether each of these members has at least two neighbours among them.
fn each_has_two(sets: [u64; 4], patterns: u64, variables: u64) -> bool {
    for place in 0..4usize {
        if (patterns >> place) & 1 == 1 && (sets[place] & variables).count_ones() < 2 {
            return false;
        }
    }
    for variable in 0..3 {
        if (variables >> variable) & 1 == 1 && with_variable(sets, patterns, variable) < 2 {
            return false;
        }
    }
    true
}

// The core, by trying all sets of members.
fn core_by_trying(sets: [u64; 4]) -> (u64, u64) {
    let mut core = (0, 0);
    for patterns in 0..16 {
        for variables in 0..8 {
            if each_has_two(sets, patterns, variables) {
                core = (core.0 | patterns, core.1 | variables);
            }
        }
    }
    core
}

// The variables of these patterns.
fn occurring(sets: [u64; 4], patterns: u64) -> u64 {
    let mut all = 0;
    for place in 0..4usize {
        if (patterns >> place) & 1 == 1 {
            all |= sets[place];
        }
    }
    all
}

// Whether the patterns cannot be parted into two groups that have variables and share none.
fn connected_by_trying(sets: [u64; 4]) -> bool {
    for patterns in 0..16 {
        let (inside, outside) = (occurring(sets, patterns), occurring(sets, 15 - patterns));
        if inside != 0 && outside != 0 && inside & outside == 0 {
            return false;
        }
    }
    true
}

// The members that no step removes.
fn rest_of(sets: [u64; 4], order: &Order) -> (u64, u64) {
    let mut rest = (15, occurring(sets, 15));
    for i in 0..order.len() {
        match order.step(i) {
            Step::Pattern(place) => rest.0 &= !(1 << (place % 64)),
            Step::Variable(variable) => rest.1 &= !(1 << (variable % 64)),
        }
    }
    rest
}

// All lists of four patterns over three variables.
#[test]
fn agrees_with_trying_all_sets(rt: HostRuntime) {
    for code in 0..4096u64 {
        let sets = [code & 7, (code >> 3) & 7, (code >> 6) & 7, (code >> 9) & 7];
        let core = core_by_trying(sets);
        let order = strip(&sets);
        assert_eq!(rt;
            u32::from(order.core()),
            core.0.count_ones() + core.1.count_ones(),
            "{sets:?}"
        );
        assert_eq!(rt; rest_of(sets, &order), core, "{sets:?}");
        let forest = order.core() == 0;
        assert_eq!(rt; one_node(&sets), forest, "{sets:?}");
        assert_eq!(rt;
            two_nodes(0, &sets),
            forest && connected_by_trying(sets),
            "{sets:?}"
        );
    }
}
