use resource_mon::*;

#[test]
fn who_waits_gets_it_in_order_of_arrival(rt: HostRuntime) {
    let mut resource: Resource<3> = Resource::new();
    assert!(rt; resource.request(1) == Grant::Got);
    assert!(rt; resource.request(2) == Grant::Wait);
    assert!(rt; resource.request(3) == Grant::Wait);
    assert!(rt; resource.release() == Some(2));
    assert!(rt; resource.admits(2) && !resource.admits(3));
    resource.resumed(2);
    assert!(rt; resource.release() == Some(3));
    assert!(rt; resource.handed() == Some(3));
}

#[test]
fn a_resource_that_nobody_waits_for_is_free_after_its_release(rt: HostRuntime) {
    let mut resource: Resource<1> = Resource::new();
    assert!(rt; resource.request(7) == Grant::Got);
    assert!(rt; resource.release() == None);
    assert!(rt; resource.admits(9));
    assert!(rt; resource.request(9) == Grant::Got);
}
