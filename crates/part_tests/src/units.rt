//! Tests of the lines of a unit, over a host that cuts its bytes as it likes.

mod lines;
