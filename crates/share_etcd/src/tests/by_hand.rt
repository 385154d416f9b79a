//! Requests by hand, and what etcd answers. Each request was sent to an etcd 3.4.23 in this order,
//! by curl, and the answers are those that it gave.

/// To `READING`, before the world was made.
pub(crate) const NOTHING: &str = "\
    {\"header\":{\"cluster_id\":\"9151734699010623715\",\"member_id\":\"3153101805118352275\",\
    \"revision\":\"1\",\"raft_term\":\"2\"},\"succeeded\":true,\
    \"responses\":[{\"response_range\":{\"header\":{\"revision\":\"1\"}}},\
    {\"response_range\":{\"header\":{\"revision\":\"1\"}}},\
    {\"response_range\":{\"header\":{\"revision\":\"1\"}}}]}";

/// To `OPENING`, before the world was made.
pub(crate) const OPENED_NOTHING: &str = "\
    {\"header\":{\"cluster_id\":\"9151734699010623715\",\"member_id\":\"3153101805118352275\",\
    \"revision\":\"1\",\"raft_term\":\"2\"},\"succeeded\":true,\
    \"responses\":[{\"response_range\":{\"header\":{\"revision\":\"1\"}}},\
    {\"response_range\":{\"header\":{\"revision\":\"1\"}}},\
    {\"response_range\":{\"header\":{\"revision\":\"1\"}}},\
    {\"response_range\":{\"header\":{\"revision\":\"1\"}}},\
    {\"response_range\":{\"header\":{\"revision\":\"1\"}}}]}";

/// Makes the world `door`.
pub(crate) const MAKING: &str = "\
    {\"compare\":[{\"key\":\"eDNkL2Rvb3IvaGVhZA==\",\"target\":\"CREATE\",\"result\":\"EQUAL\",\
    \"create_revision\":\"0\"},{\"key\":\"eDNkL2Rvb3IvdGFpbA==\",\"target\":\"CREATE\",\
    \"result\":\"EQUAL\",\"create_revision\":\"0\"}],\
    \"success\":[{\"request_put\":{\"key\":\"eDNkL2Rvb3IvaGVhZA==\",\
    \"value\":\"WDNETAECAAAHBwcHBwcHBwcHBwcHBwcHBwcHBwcHBwcHBwcHBwcHBwkJCQkJCQkJCQkJCQkJCQkLUZ6sEK\
    S/Yw==\"}},{\"request_put\":{\"key\":\"eDNkL2Rvb3IvdGFpbA==\",\
    \"value\":\"MDAwMDAwMDAwMDAwMDAwMA==\"}}]}";

/// To `MAKING`.
pub(crate) const MADE: &str = "\
    {\"header\":{\"cluster_id\":\"9151734699010623715\",\"member_id\":\"3153101805118352275\",\
    \"revision\":\"2\",\"raft_term\":\"2\"},\"succeeded\":true,\
    \"responses\":[{\"response_put\":{\"header\":{\"revision\":\"2\"}}},\
    {\"response_put\":{\"header\":{\"revision\":\"2\"}}}]}";

/// To `MAKING`, once more.
pub(crate) const NOT_MADE: &str = "\
    {\"header\":{\"cluster_id\":\"9151734699010623715\",\"member_id\":\"3153101805118352275\",\
    \"revision\":\"2\",\"raft_term\":\"2\"}}";

/// Appends a clock at 5 microseconds.
pub(crate) const APPEND: &str = "\
    {\"compare\":[{\"key\":\"eDNkL2Rvb3IvaGVhZA==\",\"target\":\"MOD\",\"result\":\"EQUAL\",\
    \"mod_revision\":\"2\"},{\"key\":\"eDNkL2Rvb3IvdGFpbA==\",\"target\":\"MOD\",\
    \"result\":\"EQUAL\",\"mod_revision\":\"2\"}],\
    \"success\":[{\"request_put\":{\"key\":\"eDNkL2Rvb3IvbG9nLzAwMDAwMDAwMDAwMDAwMDE=\",\
    \"value\":\"AAABAAAAAAAAAAEAAAAAAAAABQBpLDwgQ/srilocC6Aab+W1\"}},\
    {\"request_put\":{\"key\":\"eDNkL2Rvb3IvdGFpbA==\",\"value\":\"MDAwMDAwMDAwMDAwMDAwMQ==\"}}]}";

/// To `APPEND`.
pub(crate) const APPENDED: &str = "\
    {\"header\":{\"cluster_id\":\"9151734699010623715\",\"member_id\":\"3153101805118352275\",\
    \"revision\":\"3\",\"raft_term\":\"2\"},\"succeeded\":true,\
    \"responses\":[{\"response_put\":{\"header\":{\"revision\":\"3\"}}},\
    {\"response_put\":{\"header\":{\"revision\":\"3\"}}}]}";

/// To `APPEND`, once more.
pub(crate) const NOT_APPENDED: &str = "\
    {\"header\":{\"cluster_id\":\"9151734699010623715\",\"member_id\":\"3153101805118352275\",\
    \"revision\":\"3\",\"raft_term\":\"2\"}}";

/// Reads the world from entry 1 on.
pub(crate) const READING: &str = "\
    {\"success\":[{\"request_range\":{\"key\":\"eDNkL2Rvb3IvaGVhZA==\"}},\
    {\"request_range\":{\"key\":\"eDNkL2Rvb3IvdGFpbA==\"}},\
    {\"request_range\":{\"key\":\"eDNkL2Rvb3IvbG9nLzAwMDAwMDAwMDAwMDAwMDE=\",\
    \"range_end\":\"eDNkL2Rvb3IvbG9nMA==\",\"limit\":\"64\"}}]}";

/// To `READING`, after one more append, of the bytes `abc` for entries 2 to 300.
pub(crate) const READ: &str = "\
    {\"header\":{\"cluster_id\":\"9151734699010623715\",\"member_id\":\"3153101805118352275\",\
    \"revision\":\"4\",\"raft_term\":\"2\"},\"succeeded\":true,\
    \"responses\":[{\"response_range\":{\"header\":{\"revision\":\"4\"},\
    \"kvs\":[{\"key\":\"eDNkL2Rvb3IvaGVhZA==\",\"create_revision\":\"2\",\"mod_revision\":\"2\",\
    \"version\":\"1\",\
    \"value\":\"WDNETAECAAAHBwcHBwcHBwcHBwcHBwcHBwcHBwcHBwcHBwcHBwcHBwkJCQkJCQkJCQkJCQkJCQkLUZ6sEK\
    S/Yw==\"}],\"count\":\"1\"}},{\"response_range\":{\"header\":{\"revision\":\"4\"},\
    \"kvs\":[{\"key\":\"eDNkL2Rvb3IvdGFpbA==\",\"create_revision\":\"2\",\"mod_revision\":\"4\",\
    \"version\":\"3\",\"value\":\"MDAwMDAwMDAwMDAwMDEyYw==\"}],\"count\":\"1\"}},\
    {\"response_range\":{\"header\":{\"revision\":\"4\"},\
    \"kvs\":[{\"key\":\"eDNkL2Rvb3IvbG9nLzAwMDAwMDAwMDAwMDAwMDE=\",\"create_revision\":\"3\",\
    \"mod_revision\":\"3\",\"version\":\"1\",\
    \"value\":\"AAABAAAAAAAAAAEAAAAAAAAABQBpLDwgQ/srilocC6Aab+W1\"},\
    {\"key\":\"eDNkL2Rvb3IvbG9nLzAwMDAwMDAwMDAwMDAwMDI=\",\"create_revision\":\"4\",\
    \"mod_revision\":\"4\",\"version\":\"1\",\"value\":\"YWJj\"}],\"count\":\"2\"}}]}";

/// Opens the world.
pub(crate) const OPENING: &str = "\
    {\"success\":[{\"request_range\":{\"key\":\"eDNkL2Rvb3IvaGVhZA==\"}},\
    {\"request_range\":{\"key\":\"eDNkL2Rvb3IvdGFpbA==\"}},\
    {\"request_range\":{\"key\":\"eDNkL2Rvb3IvYmFzZQ==\"}},\
    {\"request_range\":{\"key\":\"eDNkL2Rvb3Ivc25hcHNob3Q=\"}},\
    {\"request_range\":{\"key\":\"eDNkL2Rvb3IvbG9nLzAwMDAwMDAwMDAwMDAwMDE=\",\
    \"range_end\":\"eDNkL2Rvb3IvbG9nMA==\",\"limit\":\"64\"}}]}";

/// To `OPENING`, after `READ`.
pub(crate) const OPENED_WHOLE: &str = "\
    {\"header\":{\"cluster_id\":\"9151734699010623715\",\"member_id\":\"3153101805118352275\",\
    \"revision\":\"4\",\"raft_term\":\"2\"},\"succeeded\":true,\
    \"responses\":[{\"response_range\":{\"header\":{\"revision\":\"4\"},\
    \"kvs\":[{\"key\":\"eDNkL2Rvb3IvaGVhZA==\",\"create_revision\":\"2\",\"mod_revision\":\"2\",\
    \"version\":\"1\",\
    \"value\":\"WDNETAECAAAHBwcHBwcHBwcHBwcHBwcHBwcHBwcHBwcHBwcHBwcHBwkJCQkJCQkJCQkJCQkJCQkLUZ6sEK\
    S/Yw==\"}],\"count\":\"1\"}},{\"response_range\":{\"header\":{\"revision\":\"4\"},\
    \"kvs\":[{\"key\":\"eDNkL2Rvb3IvdGFpbA==\",\"create_revision\":\"2\",\"mod_revision\":\"4\",\
    \"version\":\"3\",\"value\":\"MDAwMDAwMDAwMDAwMDEyYw==\"}],\"count\":\"1\"}},\
    {\"response_range\":{\"header\":{\"revision\":\"4\"}}},\
    {\"response_range\":{\"header\":{\"revision\":\"4\"}}},\
    {\"response_range\":{\"header\":{\"revision\":\"4\"},\
    \"kvs\":[{\"key\":\"eDNkL2Rvb3IvbG9nLzAwMDAwMDAwMDAwMDAwMDE=\",\"create_revision\":\"3\",\
    \"mod_revision\":\"3\",\"version\":\"1\",\
    \"value\":\"AAABAAAAAAAAAAEAAAAAAAAABQBpLDwgQ/srilocC6Aab+W1\"},\
    {\"key\":\"eDNkL2Rvb3IvbG9nLzAwMDAwMDAwMDAwMDAwMDI=\",\"create_revision\":\"4\",\
    \"mod_revision\":\"4\",\"version\":\"1\",\"value\":\"YWJj\"}],\"count\":\"2\"}}]}";

/// Puts a base of entry 1, with the snapshot `snap`. Its digests are those of Python's hashlib.
pub(crate) const BASING: &str = "\
    {\"compare\":[{\"key\":\"eDNkL2Rvb3IvaGVhZA==\",\"target\":\"MOD\",\"result\":\"EQUAL\",\
    \"mod_revision\":\"2\"},{\"key\":\"eDNkL2Rvb3IvdGFpbA==\",\"target\":\"MOD\",\
    \"result\":\"EQUAL\",\"mod_revision\":\"4\"}],\
    \"success\":[{\"request_put\":{\"key\":\"eDNkL2Rvb3IvaGVhZA==\",\
    \"value\":\"WDNETAECAAAHBwcHBwcHBwcHBwcHBwcHBwcHBwcHBwcHBwcHBwcHBwkJCQkJCQkJCQkJCQkJCQkLUZ6sEK\
    S/Yw==\"}},{\"request_put\":{\"key\":\"eDNkL2Rvb3IvYmFzZQ==\",\
    \"value\":\"AQIAAAABAAAAAgECAwQAAAAFAAAAAAAAAAEAAAAAAAAABWksPCBD+yuKWhwLoBpv5bUcJzJPATcFy/DEnz\
    07sQPHBp7VmIiJ1CbBDPwlaE8KMROWLP9ZKqPO\"}},\
    {\"request_put\":{\"key\":\"eDNkL2Rvb3Ivc25hcHNob3Q=\",\"value\":\"c25hcA==\"}},\
    {\"request_delete_range\":{\"key\":\"eDNkL2Rvb3IvbG9nLw==\",\
    \"range_end\":\"eDNkL2Rvb3IvbG9nLzAwMDAwMDAwMDAwMDAwMDI=\"}}]}";

/// To `BASING`.
pub(crate) const BASED: &str = "\
    {\"header\":{\"cluster_id\":\"9151734699010623715\",\"member_id\":\"3153101805118352275\",\
    \"revision\":\"5\",\"raft_term\":\"2\"},\"succeeded\":true,\
    \"responses\":[{\"response_put\":{\"header\":{\"revision\":\"5\"}}},\
    {\"response_put\":{\"header\":{\"revision\":\"5\"}}},\
    {\"response_put\":{\"header\":{\"revision\":\"5\"}}},\
    {\"response_delete_range\":{\"header\":{\"revision\":\"5\"},\"deleted\":\"1\"}}]}";

/// To `BASING`, once more.
pub(crate) const NOT_BASED: &str = "\
    {\"header\":{\"cluster_id\":\"9151734699010623715\",\"member_id\":\"3153101805118352275\",\
    \"revision\":\"5\",\"raft_term\":\"2\"}}";

/// To `OPENING`, after that.
pub(crate) const OPENED: &str = "\
    {\"header\":{\"cluster_id\":\"9151734699010623715\",\"member_id\":\"3153101805118352275\",\
    \"revision\":\"5\",\"raft_term\":\"2\"},\"succeeded\":true,\
    \"responses\":[{\"response_range\":{\"header\":{\"revision\":\"5\"},\
    \"kvs\":[{\"key\":\"eDNkL2Rvb3IvaGVhZA==\",\"create_revision\":\"2\",\"mod_revision\":\"5\",\
    \"version\":\"2\",\
    \"value\":\"WDNETAECAAAHBwcHBwcHBwcHBwcHBwcHBwcHBwcHBwcHBwcHBwcHBwkJCQkJCQkJCQkJCQkJCQkLUZ6sEK\
    S/Yw==\"}],\"count\":\"1\"}},{\"response_range\":{\"header\":{\"revision\":\"5\"},\
    \"kvs\":[{\"key\":\"eDNkL2Rvb3IvdGFpbA==\",\"create_revision\":\"2\",\"mod_revision\":\"4\",\
    \"version\":\"3\",\"value\":\"MDAwMDAwMDAwMDAwMDEyYw==\"}],\"count\":\"1\"}},\
    {\"response_range\":{\"header\":{\"revision\":\"5\"},\
    \"kvs\":[{\"key\":\"eDNkL2Rvb3IvYmFzZQ==\",\"create_revision\":\"5\",\"mod_revision\":\"5\",\
    \"version\":\"1\",\
    \"value\":\"AQIAAAABAAAAAgECAwQAAAAFAAAAAAAAAAEAAAAAAAAABWksPCBD+yuKWhwLoBpv5bUcJzJPATcFy/DEnz\
    07sQPHBp7VmIiJ1CbBDPwlaE8KMROWLP9ZKqPO\"}],\"count\":\"1\"}},\
    {\"response_range\":{\"header\":{\"revision\":\"5\"},\
    \"kvs\":[{\"key\":\"eDNkL2Rvb3Ivc25hcHNob3Q=\",\"create_revision\":\"5\",\
    \"mod_revision\":\"5\",\"version\":\"1\",\"value\":\"c25hcA==\"}],\"count\":\"1\"}},\
    {\"response_range\":{\"header\":{\"revision\":\"5\"},\
    \"kvs\":[{\"key\":\"eDNkL2Rvb3IvbG9nLzAwMDAwMDAwMDAwMDAwMDI=\",\"create_revision\":\"4\",\
    \"mod_revision\":\"4\",\"version\":\"1\",\"value\":\"YWJj\"}],\"count\":\"1\"}}]}";

/// To a key that is no base64.
pub(crate) const ERROR: &str = "\
    {\"error\":\"illegal base64 data at input byte 0\",\
    \"message\":\"illegal base64 data at input byte 0\",\"code\":3}";
