//! Answers of etcd by hand, as an etcd 3.4.23 gave them to the requests of share_etcd.

/// To `READING`, before the world was made.
pub(crate) const NOTHING: &str = "\
    {\"header\":{\"cluster_id\":\"324952591200643719\",\"member_id\":\"3319814642761637952\",\
    \"revision\":\"1\",\"raft_term\":\"2\"},\"succeeded\":true,\
    \"responses\":[{\"response_range\":{\"header\":{\"revision\":\"1\"}}},\
    {\"response_range\":{\"header\":{\"revision\":\"1\"}}},\
    {\"response_range\":{\"header\":{\"revision\":\"1\"}}}]}";

/// To `MAKING`.
pub(crate) const MADE: &str = "\
    {\"header\":{\"cluster_id\":\"324952591200643719\",\"member_id\":\"3319814642761637952\",\
    \"revision\":\"2\",\"raft_term\":\"2\"},\"succeeded\":true,\
    \"responses\":[{\"response_put\":{\"header\":{\"revision\":\"2\"}}},\
    {\"response_put\":{\"header\":{\"revision\":\"2\"}}}]}";

/// To `MAKING`, once more.
pub(crate) const NOT_MADE: &str = "\
    {\"header\":{\"cluster_id\":\"324952591200643719\",\"member_id\":\"3319814642761637952\",\
    \"revision\":\"2\",\"raft_term\":\"2\"}}";

/// To `APPEND`.
pub(crate) const APPENDED: &str = "\
    {\"header\":{\"cluster_id\":\"324952591200643719\",\"member_id\":\"3319814642761637952\",\
    \"revision\":\"3\",\"raft_term\":\"2\"},\"succeeded\":true,\
    \"responses\":[{\"response_put\":{\"header\":{\"revision\":\"3\"}}},\
    {\"response_put\":{\"header\":{\"revision\":\"3\"}}}]}";

/// To `APPEND`, once more.
pub(crate) const NOT_APPENDED: &str = "\
    {\"header\":{\"cluster_id\":\"324952591200643719\",\"member_id\":\"3319814642761637952\",\
    \"revision\":\"3\",\"raft_term\":\"2\"}}";

/// To a key that is no base64.
pub(crate) const ERROR: &str = "\
    {\"error\":\"illegal base64 data at input byte 0\",\
    \"message\":\"illegal base64 data at input byte 0\",\"code\":3}";

/// To a reading: entry 1, a clock at 5 microseconds, is all.
pub(crate) const READ_1: &str = "\
    {\"header\":{\"revision\":\"4\"},\"succeeded\":true,\"responses\":[{\"response_range\":{\"kvs\
    \":[{\"key\":\"eDNkL2Rvb3IvaGVhZA==\",\"mod_revision\":\"2\",\"value\":\"WDNETAECAAAHBwcHBwcH\
    BwcHBwcHBwcHBwcHBwcHBwcHBwcHBwcHBwkJCQkJCQkJCQkJCQkJCQkLUZ6sEKS/Yw==\"}]}},{\"response_range\
    \":{\"kvs\":[{\"key\":\"eDNkL2Rvb3IvdGFpbA==\",\"mod_revision\":\"3\",\"value\":\"MDAwMDAwMDA\
    wMDAwMDAwMQ==\"}]}},{\"response_range\":{\"kvs\":[{\"key\":\"eDNkL2Rvb3IvbG9nLzAwMDAwMDAwMDAw\
    MDAwMDE=\",\"mod_revision\":\"3\",\"value\":\"AAABAAAAAAAAAAEAAAAAAAAABQBpLDwgQ/srilocC6Aab+W\
    1\"}]}}]}";

/// Entry 1, and entries 2 and 3, clocks at 6 and 7 microseconds.
pub(crate) const READ_3: &str = "\
    {\"header\":{\"revision\":\"4\"},\"succeeded\":true,\"responses\":[{\"response_range\":{\"kvs\
    \":[{\"key\":\"eDNkL2Rvb3IvaGVhZA==\",\"mod_revision\":\"2\",\"value\":\"WDNETAECAAAHBwcHBwcH\
    BwcHBwcHBwcHBwcHBwcHBwcHBwcHBwcHBwkJCQkJCQkJCQkJCQkJCQkLUZ6sEKS/Yw==\"}]}},{\"response_range\
    \":{\"kvs\":[{\"key\":\"eDNkL2Rvb3IvdGFpbA==\",\"mod_revision\":\"4\",\"value\":\"MDAwMDAwMDA\
    wMDAwMDAwMw==\"}]}},{\"response_range\":{\"kvs\":[{\"key\":\"eDNkL2Rvb3IvbG9nLzAwMDAwMDAwMDAw\
    MDAwMDE=\",\"mod_revision\":\"3\",\"value\":\"AAABAAAAAAAAAAEAAAAAAAAABQBpLDwgQ/srilocC6Aab+W\
    1\"},{\"key\":\"eDNkL2Rvb3IvbG9nLzAwMDAwMDAwMDAwMDAwMDI=\",\"mod_revision\":\"4\",\"value\":\
    \"AAACAAAAAAAAAAIAAAAAAAAABgAAAAAAAAAABwAr4CjbhbECStDmOqDF7wRY\"}]}}]}";

/// Entry 1 of three.
pub(crate) const READ_3_FIRST: &str = "\
    {\"header\":{\"revision\":\"4\"},\"succeeded\":true,\"responses\":[{\"response_range\":{\"kvs\
    \":[{\"key\":\"eDNkL2Rvb3IvaGVhZA==\",\"mod_revision\":\"2\",\"value\":\"WDNETAECAAAHBwcHBwcH\
    BwcHBwcHBwcHBwcHBwcHBwcHBwcHBwcHBwkJCQkJCQkJCQkJCQkJCQkLUZ6sEKS/Yw==\"}]}},{\"response_range\
    \":{\"kvs\":[{\"key\":\"eDNkL2Rvb3IvdGFpbA==\",\"mod_revision\":\"4\",\"value\":\"MDAwMDAwMDA\
    wMDAwMDAwMw==\"}]}},{\"response_range\":{\"kvs\":[{\"key\":\"eDNkL2Rvb3IvbG9nLzAwMDAwMDAwMDAw\
    MDAwMDE=\",\"mod_revision\":\"3\",\"value\":\"AAABAAAAAAAAAAEAAAAAAAAABQBpLDwgQ/srilocC6Aab+W\
    1\"}]}}]}";

/// Entries 2 and 3 of three.
pub(crate) const READ_3_REST: &str = "\
    {\"header\":{\"revision\":\"4\"},\"succeeded\":true,\"responses\":[{\"response_range\":{\"kvs\
    \":[{\"key\":\"eDNkL2Rvb3IvaGVhZA==\",\"mod_revision\":\"2\",\"value\":\"WDNETAECAAAHBwcHBwcH\
    BwcHBwcHBwcHBwcHBwcHBwcHBwcHBwcHBwkJCQkJCQkJCQkJCQkJCQkLUZ6sEKS/Yw==\"}]}},{\"response_range\
    \":{\"kvs\":[{\"key\":\"eDNkL2Rvb3IvdGFpbA==\",\"mod_revision\":\"4\",\"value\":\"MDAwMDAwMDA\
    wMDAwMDAwMw==\"}]}},{\"response_range\":{\"kvs\":[{\"key\":\"eDNkL2Rvb3IvbG9nLzAwMDAwMDAwMDAw\
    MDAwMDI=\",\"mod_revision\":\"4\",\"value\":\"AAACAAAAAAAAAAIAAAAAAAAABgAAAAAAAAAABwAr4CjbhbE\
    CStDmOqDF7wRY\"}]}}]}";

/// None of three entries.
pub(crate) const READ_3_NONE: &str = "\
    {\"header\":{\"revision\":\"4\"},\"succeeded\":true,\"responses\":[{\"response_range\":{\"kvs\
    \":[{\"key\":\"eDNkL2Rvb3IvaGVhZA==\",\"mod_revision\":\"2\",\"value\":\"WDNETAECAAAHBwcHBwcH\
    BwcHBwcHBwcHBwcHBwcHBwcHBwcHBwcHBwkJCQkJCQkJCQkJCQkJCQkLUZ6sEKS/Yw==\"}]}},{\"response_range\
    \":{\"kvs\":[{\"key\":\"eDNkL2Rvb3IvdGFpbA==\",\"mod_revision\":\"4\",\"value\":\"MDAwMDAwMDA\
    wMDAwMDAwMw==\"}]}},{\"response_range\":{\"kvs\":[]}}]}";

/// Not the one entry.
pub(crate) const READ_1_NONE: &str = "\
    {\"header\":{\"revision\":\"4\"},\"succeeded\":true,\"responses\":[{\"response_range\":{\"kvs\
    \":[{\"key\":\"eDNkL2Rvb3IvaGVhZA==\",\"mod_revision\":\"2\",\"value\":\"WDNETAECAAAHBwcHBwcH\
    BwcHBwcHBwcHBwcHBwcHBwcHBwcHBwcHBwkJCQkJCQkJCQkJCQkJCQkLUZ6sEKS/Yw==\"}]}},{\"response_range\
    \":{\"kvs\":[{\"key\":\"eDNkL2Rvb3IvdGFpbA==\",\"mod_revision\":\"3\",\"value\":\"MDAwMDAwMDA\
    wMDAwMDAwMQ==\"}]}},{\"response_range\":{\"kvs\":[]}}]}";

/// Three entries, of which one is said to be there.
pub(crate) const READ_1_TOO_MANY: &str = "\
    {\"header\":{\"revision\":\"4\"},\"succeeded\":true,\"responses\":[{\"response_range\":{\"kvs\
    \":[{\"key\":\"eDNkL2Rvb3IvaGVhZA==\",\"mod_revision\":\"2\",\"value\":\"WDNETAECAAAHBwcHBwcH\
    BwcHBwcHBwcHBwcHBwcHBwcHBwcHBwcHBwkJCQkJCQkJCQkJCQkJCQkLUZ6sEKS/Yw==\"}]}},{\"response_range\
    \":{\"kvs\":[{\"key\":\"eDNkL2Rvb3IvdGFpbA==\",\"mod_revision\":\"3\",\"value\":\"MDAwMDAwMDA\
    wMDAwMDAwMQ==\"}]}},{\"response_range\":{\"kvs\":[{\"key\":\"eDNkL2Rvb3IvbG9nLzAwMDAwMDAwMDAw\
    MDAwMDE=\",\"mod_revision\":\"3\",\"value\":\"AAABAAAAAAAAAAEAAAAAAAAABQBpLDwgQ/srilocC6Aab+W\
    1\"},{\"key\":\"eDNkL2Rvb3IvbG9nLzAwMDAwMDAwMDAwMDAwMDI=\",\"mod_revision\":\"4\",\"value\":\
    \"AAACAAAAAAAAAAIAAAAAAAAABgAAAAAAAAAABwAr4CjbhbECStDmOqDF7wRY\"}]}}]}";

/// Another head, of run 8, and no entries.
pub(crate) const READ_OTHER: &str = "\
    {\"header\":{\"revision\":\"4\"},\"succeeded\":true,\"responses\":[{\"response_range\":{\"kvs\
    \":[{\"key\":\"eDNkL2Rvb3IvaGVhZA==\",\"mod_revision\":\"2\",\"value\":\"WDNETAECAAAHBwcHBwcH\
    BwcHBwcHBwcHBwcHBwcHBwcHBwcHBwcHBwgICAgICAgICAgICAgICAg5m1faHfoPDA==\"}]}},{\"response_range\
    \":{\"kvs\":[{\"key\":\"eDNkL2Rvb3IvdGFpbA==\",\"mod_revision\":\"2\",\"value\":\"MDAwMDAwMDA\
    wMDAwMDAwMA==\"}]}},{\"response_range\":{\"kvs\":[]}}]}";

/// A tail where the head belongs.
pub(crate) const READ_NO_HEAD: &str = "\
    {\"header\":{\"revision\":\"4\"},\"succeeded\":true,\"responses\":[{\"response_range\":{\"kvs\
    \":[{\"key\":\"eDNkL2Rvb3IvdGFpbA==\",\"mod_revision\":\"3\",\"value\":\"MDAwMDAwMDAwMDAwMDAw\
    MQ==\"}]}},{\"response_range\":{\"kvs\":[{\"key\":\"eDNkL2Rvb3IvdGFpbA==\",\"mod_revision\":\
    \"3\",\"value\":\"MDAwMDAwMDAwMDAwMDAwMQ==\"}]}},{\"response_range\":{\"kvs\":[]}}]}";
