//! Answers to openings by hand: those of `by_hand`, with the ranges of a base and of its snapshot.

/// No world.
pub(crate) const NO_WORLD: &str = "\
        {\"header\":{\"cluster_id\":\"324952591200643719\",\"member_id\":\"3319814642761637952\",\
    \"revision\":\"1\",\"raft_term\":\"2\"},\"succeeded\":true,\"responses\":[{\"response_range\":\
    {\"header\":{\"revision\":\"1\"}}},{\"response_range\":{\"header\":{\"revision\":\"1\"}}},{\"r\
    esponse_range\":{}},{\"response_range\":{}},{\"response_range\":{\"header\":{\"revision\":\"1\
    \"}}}]}";

/// Entry 1, and entries 2 and 3, clocks at 6 and 7 microseconds.
pub(crate) const OPEN_3: &str = "\
        {\"header\":{\"revision\":\"4\"},\"succeeded\":true,\"responses\":[{\"response_range\":{\"\
    kvs\":[{\"key\":\"eDNkL2Rvb3IvaGVhZA==\",\"mod_revision\":\"2\",\"value\":\"WDNETAECAAAHBwcHBw\
    cHBwcHBwcHBwcHBwcHBwcHBwcHBwcHBwcHBwkJCQkJCQkJCQkJCQkJCQkLUZ6sEKS/Yw==\"}]}},{\"response_range\
    \":{\"kvs\":[{\"key\":\"eDNkL2Rvb3IvdGFpbA==\",\"mod_revision\":\"4\",\"value\":\"MDAwMDAwMDAw\
    MDAwMDAwMw==\"}]}},{\"response_range\":{}},{\"response_range\":{}},{\"response_range\":{\"kvs\
    \":[{\"key\":\"eDNkL2Rvb3IvbG9nLzAwMDAwMDAwMDAwMDAwMDE=\",\"mod_revision\":\"3\",\"value\":\"A\
    AABAAAAAAAAAAEAAAAAAAAABQBpLDwgQ/srilocC6Aab+W1\"},{\"key\":\"eDNkL2Rvb3IvbG9nLzAwMDAwMDAwMDAw\
    MDAwMDI=\",\"mod_revision\":\"4\",\"value\":\"AAACAAAAAAAAAAIAAAAAAAAABgAAAAAAAAAABwAr4CjbhbEC\
    StDmOqDF7wRY\"}]}}]}";

/// Entries 2 and 3 of three, without a base.
pub(crate) const OPEN_3_REST: &str = "\
        {\"header\":{\"revision\":\"4\"},\"succeeded\":true,\"responses\":[{\"response_range\":{\"\
    kvs\":[{\"key\":\"eDNkL2Rvb3IvaGVhZA==\",\"mod_revision\":\"2\",\"value\":\"WDNETAECAAAHBwcHBw\
    cHBwcHBwcHBwcHBwcHBwcHBwcHBwcHBwcHBwkJCQkJCQkJCQkJCQkJCQkLUZ6sEKS/Yw==\"}]}},{\"response_range\
    \":{\"kvs\":[{\"key\":\"eDNkL2Rvb3IvdGFpbA==\",\"mod_revision\":\"4\",\"value\":\"MDAwMDAwMDAw\
    MDAwMDAwMw==\"}]}},{\"response_range\":{}},{\"response_range\":{}},{\"response_range\":{\"kvs\
    \":[{\"key\":\"eDNkL2Rvb3IvbG9nLzAwMDAwMDAwMDAwMDAwMDI=\",\"mod_revision\":\"4\",\"value\":\"A\
    AACAAAAAAAAAAIAAAAAAAAABgAAAAAAAAAABwAr4CjbhbECStDmOqDF7wRY\"}]}}]}";

/// Three entries, of which one is said to be there.
pub(crate) const OPEN_1_TOO_MANY: &str = "\
        {\"header\":{\"revision\":\"4\"},\"succeeded\":true,\"responses\":[{\"response_range\":{\"\
    kvs\":[{\"key\":\"eDNkL2Rvb3IvaGVhZA==\",\"mod_revision\":\"2\",\"value\":\"WDNETAECAAAHBwcHBw\
    cHBwcHBwcHBwcHBwcHBwcHBwcHBwcHBwcHBwkJCQkJCQkJCQkJCQkJCQkLUZ6sEKS/Yw==\"}]}},{\"response_range\
    \":{\"kvs\":[{\"key\":\"eDNkL2Rvb3IvdGFpbA==\",\"mod_revision\":\"3\",\"value\":\"MDAwMDAwMDAw\
    MDAwMDAwMQ==\"}]}},{\"response_range\":{}},{\"response_range\":{}},{\"response_range\":{\"kvs\
    \":[{\"key\":\"eDNkL2Rvb3IvbG9nLzAwMDAwMDAwMDAwMDAwMDE=\",\"mod_revision\":\"3\",\"value\":\"A\
    AABAAAAAAAAAAEAAAAAAAAABQBpLDwgQ/srilocC6Aab+W1\"},{\"key\":\"eDNkL2Rvb3IvbG9nLzAwMDAwMDAwMDAw\
    MDAwMDI=\",\"mod_revision\":\"4\",\"value\":\"AAACAAAAAAAAAAIAAAAAAAAABgAAAAAAAAAABwAr4CjbhbEC\
    StDmOqDF7wRY\"}]}}]}";

/// Another head, of run 8, and no entries.
pub(crate) const OPEN_OTHER: &str = "\
        {\"header\":{\"revision\":\"4\"},\"succeeded\":true,\"responses\":[{\"response_range\":{\"\
    kvs\":[{\"key\":\"eDNkL2Rvb3IvaGVhZA==\",\"mod_revision\":\"2\",\"value\":\"WDNETAECAAAHBwcHBw\
    cHBwcHBwcHBwcHBwcHBwcHBwcHBwcHBwcHBwgICAgICAgICAgICAgICAg5m1faHfoPDA==\"}]}},{\"response_range\
    \":{\"kvs\":[{\"key\":\"eDNkL2Rvb3IvdGFpbA==\",\"mod_revision\":\"2\",\"value\":\"MDAwMDAwMDAw\
    MDAwMDAwMA==\"}]}},{\"response_range\":{}},{\"response_range\":{}},{\"response_range\":{\"kvs\
    \":[]}}]}";

/// A tail where the head belongs.
pub(crate) const OPEN_NO_HEAD: &str = "\
        {\"header\":{\"revision\":\"4\"},\"succeeded\":true,\"responses\":[{\"response_range\":{\"\
    kvs\":[{\"key\":\"eDNkL2Rvb3IvdGFpbA==\",\"mod_revision\":\"3\",\"value\":\"MDAwMDAwMDAwMDAwMD\
    AwMQ==\"}]}},{\"response_range\":{\"kvs\":[{\"key\":\"eDNkL2Rvb3IvdGFpbA==\",\"mod_revision\":\
    \"3\",\"value\":\"MDAwMDAwMDAwMDAwMDAwMQ==\"}]}},{\"response_range\":{}},{\"response_range\":{\
    }},{\"response_range\":{\"kvs\":[]}}]}";

/// A base of entry 1 and the snapshot `world`, put at revision 5, and entries 2 and 3.
pub(crate) const OPEN_BASE: &str = "\
        {\"header\":{\"revision\":\"4\"},\"succeeded\":true,\"responses\":[{\"response_range\":{\"\
    kvs\":[{\"key\":\"eDNkL2Rvb3IvaGVhZA==\",\"mod_revision\":\"5\",\"value\":\"WDNETAECAAAHBwcHBw\
    cHBwcHBwcHBwcHBwcHBwcHBwcHBwcHBwcHBwkJCQkJCQkJCQkJCQkJCQkLUZ6sEKS/Yw==\"}]}},{\"response_range\
    \":{\"kvs\":[{\"key\":\"eDNkL2Rvb3IvdGFpbA==\",\"mod_revision\":\"4\",\"value\":\"MDAwMDAwMDAw\
    MDAwMDAwMw==\"}]}},{\"response_range\":{\"kvs\":[{\"key\":\"eDNkL2Rvb3IvYmFzZQ==\",\"mod_revis\
    ion\":\"5\",\"value\":\"AQIAAAAAAAAAAAAAAAAAAAAAAAAAAAAAAAEAAAAAAAAABWksPCBD+yuKWhwLoBpv5bVIbq\
    RiJNG7T7aA8098mtlqjyTsiL5z6o5abGUmDpy4p2QzcQkTLEwp\"}]}},{\"response_range\":{\"kvs\":[{\"key\
    \":\"eDNkL2Rvb3Ivc25hcHNob3Q=\",\"mod_revision\":\"5\",\"value\":\"d29ybGQ=\"}]}},{\"response_\
    range\":{\"kvs\":[{\"key\":\"eDNkL2Rvb3IvbG9nLzAwMDAwMDAwMDAwMDAwMDI=\",\"mod_revision\":\"4\"\
    ,\"value\":\"AAACAAAAAAAAAAIAAAAAAAAABgAAAAAAAAAABwAr4CjbhbECStDmOqDF7wRY\"}]}}]}";

/// A base that keeps something of three viewers.
pub(crate) const OPEN_OTHER_SEATS: &str = "\
        {\"header\":{\"revision\":\"4\"},\"succeeded\":true,\"responses\":[{\"response_range\":{\"\
    kvs\":[{\"key\":\"eDNkL2Rvb3IvaGVhZA==\",\"mod_revision\":\"5\",\"value\":\"WDNETAECAAAHBwcHBw\
    cHBwcHBwcHBwcHBwcHBwcHBwcHBwcHBwcHBwkJCQkJCQkJCQkJCQkJCQkLUZ6sEKS/Yw==\"}]}},{\"response_range\
    \":{\"kvs\":[{\"key\":\"eDNkL2Rvb3IvdGFpbA==\",\"mod_revision\":\"4\",\"value\":\"MDAwMDAwMDAw\
    MDAwMDAwMw==\"}]}},{\"response_range\":{\"kvs\":[{\"key\":\"eDNkL2Rvb3IvYmFzZQ==\",\"mod_revis\
    ion\":\"5\",\"value\":\"AQMAAAAAAAAAAAAAAAAAAAAAAAAAAAAAAAAAAAAAAAAAAQAAAAAAAAAFaSw8IEP7K4paHA\
    ugGm/ltUhupGIk0btPtoDzT3ya2WqPJOyIvnPqjlpsZSYOnLinfK7jzNoA0rY=\"}]}},{\"response_range\":{\"kv\
    s\":[{\"key\":\"eDNkL2Rvb3Ivc25hcHNob3Q=\",\"mod_revision\":\"5\",\"value\":\"d29ybGQ=\"}]}},{\
    \"response_range\":{\"kvs\":[{\"key\":\"eDNkL2Rvb3IvbG9nLzAwMDAwMDAwMDAwMDAwMDI=\",\"mod_revis\
    ion\":\"4\",\"value\":\"AAACAAAAAAAAAAIAAAAAAAAABgAAAAAAAAAABwAr4CjbhbECStDmOqDF7wRY\"}]}}]}";

/// A base whose bytes are none.
pub(crate) const OPEN_NO_BASE: &str = "\
        {\"header\":{\"revision\":\"4\"},\"succeeded\":true,\"responses\":[{\"response_range\":{\"\
    kvs\":[{\"key\":\"eDNkL2Rvb3IvaGVhZA==\",\"mod_revision\":\"5\",\"value\":\"WDNETAECAAAHBwcHBw\
    cHBwcHBwcHBwcHBwcHBwcHBwcHBwcHBwcHBwkJCQkJCQkJCQkJCQkJCQkLUZ6sEKS/Yw==\"}]}},{\"response_range\
    \":{\"kvs\":[{\"key\":\"eDNkL2Rvb3IvdGFpbA==\",\"mod_revision\":\"4\",\"value\":\"MDAwMDAwMDAw\
    MDAwMDAwMw==\"}]}},{\"response_range\":{\"kvs\":[{\"key\":\"eDNkL2Rvb3IvYmFzZQ==\",\"mod_revis\
    ion\":\"5\",\"value\":\"AQIAAAAAAAAAAAAAAAAAAAAAAAAAAAAAAAEAAAAAAAAABWksPCBD+yuKWhwLoBpv5bVIbq\
    RiJNG7T7aA8098mtlqjyTsiL5z6o5abGUmDpy4p2QzcQkTLEw=\"}]}},{\"response_range\":{\"kvs\":[{\"key\
    \":\"eDNkL2Rvb3Ivc25hcHNob3Q=\",\"mod_revision\":\"5\",\"value\":\"d29ybGQ=\"}]}},{\"response_\
    range\":{\"kvs\":[{\"key\":\"eDNkL2Rvb3IvbG9nLzAwMDAwMDAwMDAwMDAwMDI=\",\"mod_revision\":\"4\"\
    ,\"value\":\"AAACAAAAAAAAAAIAAAAAAAAABgAAAAAAAAAABwAr4CjbhbECStDmOqDF7wRY\"}]}}]}";

/// To a reading: the head was put again at revision 5, and no entry follows the first.
pub(crate) const READ_1_AGAIN: &str = "\
        {\"header\":{\"revision\":\"4\"},\"succeeded\":true,\"responses\":[{\"response_range\":{\"\
    kvs\":[{\"key\":\"eDNkL2Rvb3IvaGVhZA==\",\"mod_revision\":\"5\",\"value\":\"WDNETAECAAAHBwcHBw\
    cHBwcHBwcHBwcHBwcHBwcHBwcHBwcHBwcHBwkJCQkJCQkJCQkJCQkJCQkLUZ6sEKS/Yw==\"}]}},{\"response_range\
    \":{\"kvs\":[{\"key\":\"eDNkL2Rvb3IvdGFpbA==\",\"mod_revision\":\"3\",\"value\":\"MDAwMDAwMDAw\
    MDAwMDAwMQ==\"}]}},{\"response_range\":{\"kvs\":[]}}]}";

/// To a reading: the head was put again at revision 5, and none of three entries.
pub(crate) const READ_3_AGAIN: &str = "\
        {\"header\":{\"revision\":\"4\"},\"succeeded\":true,\"responses\":[{\"response_range\":{\"\
    kvs\":[{\"key\":\"eDNkL2Rvb3IvaGVhZA==\",\"mod_revision\":\"5\",\"value\":\"WDNETAECAAAHBwcHBw\
    cHBwcHBwcHBwcHBwcHBwcHBwcHBwcHBwcHBwkJCQkJCQkJCQkJCQkJCQkLUZ6sEKS/Yw==\"}]}},{\"response_range\
    \":{\"kvs\":[{\"key\":\"eDNkL2Rvb3IvdGFpbA==\",\"mod_revision\":\"4\",\"value\":\"MDAwMDAwMDAw\
    MDAwMDAwMw==\"}]}},{\"response_range\":{\"kvs\":[]}}]}";

/// To a base: done at revision 5.
pub(crate) const BASED: &str = "\
    {\"header\":{\"cluster_id\":\"324952591200643719\",\"member_id\":\"3319814642761637952\",\"rev\
    ision\":\"5\",\"raft_term\":\"2\"},\"succeeded\":true,\"responses\":[{\"response_put\":{\"head\
    er\":{\"revision\":\"5\"}}},{\"response_put\":{\"header\":{\"revision\":\"5\"}}},{\"response_p\
    ut\":{\"header\":{\"revision\":\"5\"}}},{\"response_delete_range\":{\"header\":{\"revision\":\
    \"5\"},\"deleted\":\"1\"}}]}";
