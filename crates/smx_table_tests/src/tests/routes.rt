//! Tables of routes. Routes are made, replaced, listed in order, copied, looked up and removed.

use smx_addresses::Routes;
use smx_types::Route;
use std::mem::forget;
use std::process::Abort;

fn is_listed(rt: &(impl AllocGlobal + Abort), table: &Routes, wanted: &[Route]) {
    let list = table.list(rt.alloc()).expect(rt, "memory");
    assert!(rt; list.as_slice() == wanted);
}

// Routes of two drivers, not in order. On driver 0, two addresses are routed a second time: address 5 to another link,
// and address 4 to the same link as before.
const ROUTED: [(u8, u32, u32); 6] = [
    (0, 5, 1),
    (1, 5, 3),
    (0, 4, 2),
    (0, 4_294_967_295, 2),
    (0, 5, 2),
    (0, 4, 2),
];

const LISTED: [Route; 4] = [
    Route {
        driver: 0,
        addr: 4,
        id: 2,
    },
    Route {
        driver: 0,
        addr: 5,
        id: 2,
    },
    Route {
        driver: 0,
        addr: 4_294_967_295,
        id: 2,
    },
    Route {
        driver: 1,
        addr: 5,
        id: 3,
    },
];

fn has_routes(rt: &(impl AllocGlobal + Abort), table: &mut Routes) {
    is_listed(rt, table, &[]);
    for (driver, addr, id) in &ROUTED {
        assert!(rt; table.route(*driver, *addr, *id).is_ok());
    }
    is_listed(rt, table, &LISTED);
}

fn copy_has_routes(rt: &(impl AllocGlobal + Abort), table: &Routes) {
    let again = table.copy(rt.alloc()).expect(rt, "memory");
    is_listed(rt, &again, &LISTED);
    forget(again);
}

// Removes a route by its address, then the route to link 3, then the routes to links 1 and 2.
fn unroutes(rt: &impl Abort, table: &mut Routes) {
    let first = Some(Route {
        driver: 0,
        addr: 4,
        id: 2,
    });
    assert!(rt; table.at(0, 4) == first);
    assert!(rt; table.unroute(0, 4) == first);
    table.unroute_link(3);
    assert!(rt; table.len() == 2);
    table.unroute_links(&[1, 2]);
    assert!(rt; table.is_empty());
}

#[test]
fn routes_of_three_links(rt: HostRuntime) {
    let mut table = Routes::new(rt.alloc());
    has_routes(&rt, &mut table);
    copy_has_routes(&rt, &table);
    unroutes(&rt, &mut table);
    forget(table);
}
